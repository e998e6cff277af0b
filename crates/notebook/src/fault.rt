// Why a notebook refuses.
ghost use Rattle.std.specs.Prelude.{◌≡◌, Some};
ghost use Rattle.notebook.specs.declared.fault.NotebookFault.TheVariants.{Bank};
ghost use Rattle.notebook.specs.Faults.{fault_number, fault_reason};

use clock_bank::fault::BankFault;
use std::error::Error;
use std::fmt;

// A refusal leaves bank, notebook and tables as they were.
#[derive(Clone, Copy, PartialEq, Eq, Debug)]
pub enum NotebookFault {
    // a notebook has 1 to 32 threads, at most 256 locks and at most 1,024 variables
    CountLimit,
    // the bank's counts or the rule's number are not the notebook's
    Misfit,
    // no thread has that number
    NoThread,
    // no lock or variable has that number
    NoObject,
    // the lock to acquire is held
    LockHeld,
    // the lock to release is free, or another thread holds it
    NotHolder,
    // the log or the stamps have no place left, or there are 65,535 events
    Full,
    // no event has that position
    NoPosition,
    // the table holds no such pair
    NotHeld,
    // the bank's own refusal
    Bank(BankFault),
}

impl From<BankFault> for NotebookFault {
    ghost from_gives = { λ fault r. r ≡ Bank fault };

    fn from(fault: BankFault) -> NotebookFault {
        NotebookFault::Bank(fault) // keeps the bank's own
    }
}

impl NotebookFault {
    // The number by which a refusal is known and printed. It is no cast, since one case holds a bank's refusal, which
    // keeps its own.
    pub fn number(self) -> u16
        ensures { result ≡ fault_number self }
    {
        match self {
            NotebookFault::CountLimit => 7,
            NotebookFault::Misfit => 8,
            NotebookFault::NoThread => 9,
            NotebookFault::NoObject => 10,
            NotebookFault::LockHeld => 11,
            NotebookFault::NotHolder => 12,
            NotebookFault::Full => 13,
            NotebookFault::NoPosition => 14,
            NotebookFault::NotHeld => 15,
            NotebookFault::Bank(fault) => fault.number(),
        }
    }
}

// The reason of a refusal, in words.
impl fmt::Display for NotebookFault {
    ghost output = { λ fault. Some (fault_reason fault) };

    fn fmt<W: fmt::Write>(&self, f: &mut fmt::Formatter<W>) -> fmt::Result {
        match self {
            NotebookFault::CountLimit => f.write_str("a count is outside its limits"),
            NotebookFault::Misfit => f.write_str("the bank or the rule is not the notebook's"),
            NotebookFault::NoThread => f.write_str("no thread has that number"),
            NotebookFault::NoObject => f.write_str("no lock or variable has that number"),
            NotebookFault::LockHeld => f.write_str("the lock is held"),
            NotebookFault::NotHolder => f.write_str("the thread does not hold the lock"),
            NotebookFault::Full => f.write_str("the log or the stamps are full"),
            NotebookFault::NoPosition => f.write_str("no event has that position"),
            NotebookFault::NotHeld => f.write_str("the table holds no such pair"),
            NotebookFault::Bank(fault) => write!(f, "{fault}"),
        }
    }
}

impl Error for NotebookFault {}
