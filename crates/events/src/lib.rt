// Operations, events, which of them conflict, and the rules that order them.
#![tactic(auto)]

pub mod conflict;
pub mod event;
pub mod happens_before;
pub mod rule;
pub mod schedulable;
pub mod text;
