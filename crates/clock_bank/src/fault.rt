// Why a bank refuses.
ghost use Rattle.std.specs.Prelude.{◌≡◌, Some};
ghost use Rattle.clock_bank.specs.Faults.{number_of, reason_of};

use std::error::Error;
use std::fmt;

// A refusal leaves every row and the table as they were. Its number is that by which it is known and printed.
#[derive(Clone, Copy, PartialEq, Eq, Debug)]
pub enum BankFault {
    // a bank has 1 to 32 threads
    ThreadCount = 1,
    // a bank has at most 1,280 slots
    SlotCount = 2,
    // the table that is lent has too few places
    TableShort = 3,
    // no thread has that number
    NoThread = 4,
    // no slot has that number
    NoSlot = 5,
    // the thread's own entry is at its largest, 65,535
    EntryLimit = 6,
}

impl BankFault {
    pub fn number(self) -> u16
        ensures { result ≡ number_of self }
    {
        self as u16
    }
}

impl fmt::Display for BankFault {
    ghost output = { λ fault. Some (reason_of fault) };

    fn fmt<W: fmt::Write>(&self, f: &mut fmt::Formatter<W>) -> fmt::Result {
        f.write_str(match self {
            BankFault::ThreadCount => "a bank has 1 to 32 threads",
            BankFault::SlotCount => "a bank has at most 1280 slots",
            BankFault::TableShort => "the table is too short",
            BankFault::NoThread => "no thread has that number",
            BankFault::NoSlot => "no slot has that number",
            BankFault::EntryLimit => "the thread's own entry is at its largest",
        })
    }
}

impl Error for BankFault {}
