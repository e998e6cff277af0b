// Locks: free, or held by one thread.
ghost use Rattle.std.specs.Prelude.{◌≡◌};
ghost use Rattle.clock_bank.specs.Faults.{or_fault};
ghost use Rattle.notebook.specs.Locks.{lock_fault, lock_after};

use crate::fault::NotebookFault;
use events::event::{Event, Operation};

// A type of its own, for what an event finds and does at a lock.
#[derive(Clone, Copy, PartialEq, Eq, Debug)]
pub struct Lock {
    pub holder: Option<u16>,
}

impl Lock {
    // Whether an event is admitted on this lock. An access is on no lock.
    pub fn check(self, event: Event) -> Result<(), NotebookFault>
        ensures { result ≡ or_fault (lock_fault self.holder event.thread event.operation) tt }
    {
        match (self.holder, event.operation) {
            (Some(_), Operation::Acquire(_)) => Err(NotebookFault::LockHeld),
            (Some(owner), Operation::Release(_)) if owner == event.thread => Ok(()),
            (_, Operation::Release(_)) => Err(NotebookFault::NotHolder),
            _ => Ok(()),
        }
    }

    // What an event on this lock does to it.
    pub fn change(&mut self, event: Event)
        ensures { self.new.holder ≡ lock_after event.operation event.thread self.old.holder }
    {
        match (self.holder, event.operation) {
            (None, Operation::Acquire(_)) => self.holder = Some(event.thread),
            (Some(owner), Operation::Release(_)) if owner == event.thread => self.holder = None,
            _ => {}
        }
    }
}
