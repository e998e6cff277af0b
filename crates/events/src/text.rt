// The text of operations and events, as t0 read v0.
ghost use Rattle.std.specs.Prelude.{Some};
ghost use Rattle.events.specs.Texts.{operation_text, event_text};

use crate::event::{Event, Operation};
use std::fmt;

impl fmt::Display for Operation {
    ghost output = { λ operation. Some (operation_text operation) };

    fn fmt<W: fmt::Write>(&self, f: &mut fmt::Formatter<W>) -> fmt::Result {
        match self {
            Operation::Read(v) => write!(f, "read v{v}"),
            Operation::Write(v) => write!(f, "write v{v}"),
            Operation::Acquire(l) => write!(f, "acquire l{l}"),
            Operation::Release(l) => write!(f, "release l{l}"),
        }
    }
}

impl fmt::Display for Event {
    ghost output = { λ event. Some (event_text event) };

    fn fmt<W: fmt::Write>(&self, f: &mut fmt::Formatter<W>) -> fmt::Result {
        write!(f, "t{} {}", self.thread, self.operation)
    }
}
