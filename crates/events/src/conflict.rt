// Which events conflict: those of two threads that touch one variable, where at least one writes.
ghost use Rattle.std.specs.Prelude.{◌≡◌, ◌↔◌, IsTrue};
ghost use Rattle.events.specs.Events.{kind_of, object_of};
ghost use Rattle.events.specs.Conflicts.{table_of_kinds, is_access, clashes, Conflict, conflicts};

use crate::event::{Event, Operation};

// The kind of an operation, without its variable or lock.
#[derive(Clone, Copy, PartialEq, Eq, Debug)]
pub enum Kind {
    Read,
    Write,
    Acquire,
    Release,
}

// For one kind, whether it can conflict with each kind, in the order of their declaration: the table of kinds is one
// constant of such rows.
#[derive(Clone, Copy, PartialEq, Eq, Debug)]
pub struct KindRow {
    pub with: [bool; 4],
}

const CLASHES: [KindRow; 4] = [
    KindRow {
        with: [false, true, false, false],
    },
    KindRow {
        with: [true, true, false, false],
    },
    KindRow {
        with: [false, false, false, false],
    },
    KindRow {
        with: [false, false, false, false],
    },
];

// The whole table: two kinds can conflict where both are accesses and at least one writes.
pub fn kind_table() -> [KindRow; 4]
    ensures { result ≡ table_of_kinds }
{
    CLASHES // a row for each kind
}

impl Operation {
    // A method and no `From`: the test of two events names what it asks for.
    pub fn kind(self) -> Kind
        ensures { result ≡ kind_of self }
    {
        match self {
            Operation::Read(_) => Kind::Read,
            Operation::Write(_) => Kind::Write,
            Operation::Acquire(_) => Kind::Acquire,
            Operation::Release(_) => Kind::Release,
        }
    }

    // The number of its variable or lock. A method and no `From`: it is one of the two numbers of an event.
    pub fn object(self) -> u16
        ensures { result ≡ object_of self }
    {
        match self {
            Operation::Read(v) | Operation::Write(v) => v,
            Operation::Acquire(l) | Operation::Release(l) => l,
        }
    }

    // Whether it is a read or a write.
    pub fn is_access(self) -> bool
        ensures { result ≡ is_access (kind_of self) }
    {
        matches!(self, Operation::Read(_) | Operation::Write(_))
    }
}

impl Kind {
    // Whether operations of two kinds can conflict.
    pub fn clashes(self, other: Kind) -> bool
        ensures { result ≡ clashes self other }
    {
        CLASHES[self as usize].with[other as usize]
    }
}

impl Event {
    // Whether two events conflict.
    pub fn conflicts_with(self, other: Event) -> bool
        ensures test { result ≡ conflicts self other }
        ensures means { IsTrue result ↔ Conflict self other }
    {
        let clash = self.operation.kind().clashes(other.operation.kind());
        let touch = self.operation.object() == other.operation.object();
        let apart = self.thread != other.thread;
        apart && touch && clash
    }
}
