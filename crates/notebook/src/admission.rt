// Which events a notebook admits. Numbers are cast by `as`, which the check proves to lose nothing.
ghost use Rattle.std.specs.Prelude.{◌≡◌, true, None};
ghost use Rattle.clock_bank.specs.Faults.{or_fault, require};
ghost use Rattle.events.specs.Events.{object_of};
ghost use Rattle.notebook.specs.declared.fault.NotebookFault.TheVariants.{Misfit};
ghost use Rattle.notebook.specs.Locks.{lock_fault};
ghost use Rattle.notebook.specs.Books.{events};
ghost use Rattle.notebook.specs.Notes.{setting, fits, is_object_of, held_by, admission, own_fault};
ghost use Rattle.notebook.specs.View.{book};

use crate::fault::NotebookFault;
use crate::notebook::Notebook;
use clock_bank::counts::BankCounts;
use events::event::{Event, Operation};
use orders::counts::Counts;

// Whether the variable or lock of an operation is one that there is.
fn has_object(counts: Counts, operation: Operation) -> bool
    ensures { result ≡ is_object_of counts operation }
{
    match operation {
        Operation::Read(v) | Operation::Write(v) => v < counts.variables,
        Operation::Acquire(l) | Operation::Release(l) => l < counts.locks,
    }
}

impl<'a> Notebook<'a> {
    // Whether a bank of these counts and a rule of this number are those that the notebook is for.
    pub(crate) fn check_fit(&self, bank: BankCounts, rule: u16) -> Result<(), NotebookFault>
        ensures { result ≡ or_fault (require (fits (setting (book self.now)) bank.threads bank.slots rule) Misfit None) tt }
    {
        if bank == BankCounts::from(self.counts) && rule == self.rule {
            Ok(())
        } else {
            Err(NotebookFault::Misfit)
        }
    }

    // Whether an event is admitted at its lock, which its operation names.
    fn check_lock(&self, event: Event) -> Result<(), NotebookFault>
        requires { is_object_of self.now.counts event.operation ≡ true }
        ensures { result ≡ or_fault (lock_fault (held_by (events (book self.now)) (object_of event.operation)) event.thread event.operation) tt }
    {
        match event.operation {
            Operation::Read(_) | Operation::Write(_) => Ok(()),
            Operation::Acquire(l) | Operation::Release(l) => self.locks[l as usize].check(event),
        }
    }

    // Whether an event is admitted, where there is room for it.
    fn admit(&self, event: Event) -> Result<(), NotebookFault>
        ensures { result ≡ or_fault (admission (setting (book self.now)) (events (book self.now)) event None) tt }
    {
        if event.thread >= self.counts.threads {
            return Err(NotebookFault::NoThread);
        }
        if !has_object(self.counts, event.operation) {
            return Err(NotebookFault::NoObject);
        }
        self.check_lock(event)
    }

    // Whether an event can be noted, before its bank is asked.
    pub(crate) fn check_event(&mut self, event: Event) -> Result<(), NotebookFault>
        ensures same { book self.new ≡ book self.old }
        ensures answer { result ≡ or_fault (own_fault (setting (book self.old)) (events (book self.old)) event) tt }
    {
        self.admit(event)?;
        if self.tables.has_room(self.counts.threads) {
            Ok(())
        } else {
            Err(NotebookFault::Full)
        }
    }
}
