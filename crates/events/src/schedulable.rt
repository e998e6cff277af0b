// Rule 2, schedulable happens-before: a read takes from its variable's slot, and a write posts to it.
ghost use Rattle.events.specs.Rules.{schedulable};
ghost use Rattle.std.proofs.Common.{rules};

use crate::event::Operation;
use crate::happens_before::HappensBefore;
use crate::rule::Rule;
use clock_bank::slots::Slots;

#[derive(Clone, Copy, PartialEq, Eq, Debug)]
pub struct Schedulable;

impl Rule for Schedulable {
    ghost means = { schedulable };

    ghost NUMBER = { 2 };

    const NUMBER: u16 = 2;

    ghost numbered = { Prim.search rules };

    ghost lawful = { Prim.search rules };

    fn slots(operation: Operation, locks: u16) -> Slots {
        match operation {
            Operation::Read(v) => Slots::take_from(u32::from(locks) + u32::from(v)),
            Operation::Write(v) => Slots::post_to(u32::from(locks) + u32::from(v)),
            // locks as under rule 1
            Operation::Acquire(_) | Operation::Release(_) => HappensBefore::slots(operation, locks),
        }
    }
}
