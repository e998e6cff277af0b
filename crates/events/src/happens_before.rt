// Rule 1, happens-before: accesses use no slot.
ghost use Rattle.events.specs.Rules.{happens_before};
ghost use Rattle.std.proofs.Common.{rules};

use crate::event::Operation;
use crate::rule::Rule;
use clock_bank::slots::Slots;

#[derive(Clone, Copy, PartialEq, Eq, Debug)]
pub struct HappensBefore;

impl Rule for HappensBefore {
    ghost means = { happens_before };

    ghost NUMBER = { 1 };

    const NUMBER: u16 = 1;

    ghost numbered = { Prim.search rules };

    ghost lawful = { Prim.search rules };

    fn slots(operation: Operation, _locks: u16) -> Slots {
        match operation {
            Operation::Acquire(l) => Slots::take_from(l.into()),
            Operation::Release(l) => Slots::post_to(l.into()),
            Operation::Read(_) | Operation::Write(_) => Slots::NONE,
        }
    }
}
