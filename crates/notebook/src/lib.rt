// The notebook: it notes events one after another, with their times and the pairs that race, over any clock bank and
// under any order rule.
#![tactic(auto)]

mod admission;
mod calls;
pub mod fault;
pub mod lock;
pub mod log;
mod notebook;
mod notes;
mod questions;
mod tables;

pub use notebook::Notebook;
pub use notes::note;
