// Rules that order events. A rule tells, for an operation, the slot of a clock bank that its thread takes
// from, and the slot that it posts to, or none.
ghost use Rattle.std.specs.Prelude.{◌≡◌, ℕ};
ghost use Rattle.events.specs.Rules.{OrderRule, Lawful, slots_of};

use crate::event::Operation;
use clock_bank::slots::Slots;

pub trait Rule {
    // the rule's number and its slots
    ghost means: { OrderRule };

    // the number again, by the name that contracts know of the constant
    ghost NUMBER: { ℕ };

    // The rule's own number.
    const NUMBER: u16;

    // The slots of an operation, where there are so many locks: lock l has slot l, variable v has slot locks + v.
    fn slots(operation: Operation, locks: u16) -> Slots
        ensures { result ≡ slots_of means locks operation };

    ghost numbered: { NUMBER ≡ means.number };

    // every rule is lawful
    ghost lawful: { Lawful means };
}
