// The flat bank: a clock bank whose rows lie one after another in a lent table of numbers.
#![tactic(auto)]

mod calls;
mod flat;

pub use flat::FlatBank;
