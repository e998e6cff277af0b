// Orders of a trace's events, times and pairs: the definitions, and what is proved of them.
#![tactic(auto)]

pub mod counts;
pub mod pair;
pub mod theorems;
