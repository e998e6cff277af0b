// What the programs that run scripts share: the words of a line, the orders by their numbers, and the count of what
// was compared.
#![tactic(auto)]

pub mod fault;
pub mod lists;
pub mod order;
pub mod tally;
pub mod words;
