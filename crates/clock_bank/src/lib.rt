// Clock banks: what a bank means, how it refuses, and the one interface of all banks.
#![tactic(auto)]

pub mod bank;
pub mod counts;
pub mod fault;
pub mod slots;
