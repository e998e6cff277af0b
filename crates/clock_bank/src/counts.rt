// How many threads and slots a bank has, and what a bank checks of its counts, of its table and of an advance.
ghost use Rattle.std.specs.Prelude.{◌≡◌};
ghost use Rattle.clock_bank.specs.Faults.{or_fault, count_fault, step_fault};

use crate::fault::BankFault;
use crate::slots::Slots;

pub const MOST_THREADS: u16 = 32;

pub const MOST_SLOTS: u32 = 1280;

pub const LARGEST_ENTRY: u32 = 65535;

#[derive(Clone, Copy, PartialEq, Eq, Debug, Default)]
pub struct BankCounts {
    pub threads: u16,
    pub slots: u32,
}

impl BankCounts {
    // Whether a bank can have these counts over a table of `places`, of which it needs `needed`.
    pub fn check(self, needed: usize, places: usize) -> Result<(), BankFault>
        ensures { result ≡ or_fault (count_fault self.threads self.slots needed places) tt }
    {
        if !(1..=MOST_THREADS).contains(&self.threads) {
            return Err(BankFault::ThreadCount);
        }
        if self.slots > MOST_SLOTS {
            return Err(BankFault::SlotCount);
        }
        if places < needed {
            return Err(BankFault::TableShort);
        }
        Ok(())
    }

    // Whether a bank with these counts can advance a thread whose own entry is `own`.
    pub fn check_advance(self, own: u32, thread: u16, slots: Slots) -> Result<(), BankFault>
        ensures { result ≡ or_fault (step_fault self.threads self.slots own thread slots.take slots.post) tt }
    {
        if thread >= self.threads {
            return Err(BankFault::NoThread);
        }
        if !slots.are_below(self.slots) {
            return Err(BankFault::NoSlot);
        }
        if own >= LARGEST_ENTRY {
            return Err(BankFault::EntryLimit);
        }
        Ok(())
    }
}
