// Checking and making a notebook.
ghost use Rattle.std.specs.Prelude.{◌≡◌};
ghost use Rattle.clock_bank.specs.Faults.{or_fault};
ghost use Rattle.notebook.specs.Books.{check_fault, admitted_counts, opened};
ghost use Rattle.notebook.specs.View.{book};

use crate::fault::NotebookFault;
use crate::lock::Lock;
use crate::log::LoggedEvent;
use crate::notebook::Notebook;
use crate::tables::Tables;
use clock_bank::counts::MOST_THREADS;
use keep_list::KeepList;
use orders::counts::Counts;
use orders::pair::PositionPair;

// The most locks and variables of a notebook; the most threads are a bank's.
const MOST_LOCKS: u16 = 256;

const MOST_VARIABLES: u16 = 1024;

// The counts of a notebook that is made for these: the same, or none where the check fails.
fn admitted(counts: Counts) -> Counts
    ensures { result ≡ admitted_counts counts }
{
    match Notebook::check(counts) {
        Ok(()) => counts,
        Err(_) => Counts::default(),
    }
}

impl<'a> Notebook<'a> {
    // Whether a notebook can have these counts.
    pub fn check(counts: Counts) -> Result<(), NotebookFault>
        ensures { result ≡ or_fault (check_fault counts) tt }
    {
        let threads = (1..=MOST_THREADS).contains(&counts.threads);
        if threads && counts.locks <= MOST_LOCKS && counts.variables <= MOST_VARIABLES {
            Ok(())
        } else {
            Err(NotebookFault::CountLimit)
        }
    }

    // A notebook for the rule of this number, with nothing noted and every lock free; where the check fails, all its
    // counts are 0.
    pub fn new(
        counts: Counts,
        number: u16,
        log: &'a mut [LoggedEvent],
        stamps: &'a mut [u32],
        pairs: &'a mut [PositionPair],
    ) -> Notebook<'a>
        ensures { book result ≡ opened counts number log.old stamps.old pairs.old }
    {
        Notebook {
            counts: admitted(counts),
            rule: number,
            locks: [Lock { holder: None }; 256],
            seen: [0; 32],
            tables: Tables {
                log: KeepList::new(log),
                stamps,
                pairs: KeepList::new(pairs),
            },
        }
    }
}
