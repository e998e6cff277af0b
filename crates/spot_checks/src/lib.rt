// Tests at the limits, by example, of the crates below.
#![tactic(auto)]

#[cfg(test)]
mod banks;
#[cfg(test)]
mod conflicts;
#[cfg(test)]
mod keep;
#[cfg(test)]
mod script;
