// How many threads, locks and variables a trace is about; each counts from 0.
ghost use Rattle.std.specs.Prelude.{◌≡◌};
ghost use Rattle.orders.specs.Needs.{bank_counts};

use clock_bank::counts::BankCounts;

#[derive(Clone, Copy, PartialEq, Eq, Debug, Default)]
pub struct Counts {
    pub threads: u16,
    pub locks: u16,
    pub variables: u16,
}

// The bank that they need: a slot for each lock and each variable.
impl From<Counts> for BankCounts {
    ghost from_gives = { λ counts bank. bank ≡ bank_counts counts };

    fn from(counts: Counts) -> BankCounts {
        BankCounts {
            threads: counts.threads,
            slots: u32::from(counts.locks) + u32::from(counts.variables),
        }
    }
}
