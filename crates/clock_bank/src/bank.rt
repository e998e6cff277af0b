// The interface of clock banks. What a bank means is its rows, a ghost member: code that is generic
// over banks is proved once, against the rows.
ghost use Rattle.std.specs.Prelude.{◌≡◌, length};
ghost use Rattle.clock_bank.specs.Rows.{Rows, Shaped, entry, advanced};
ghost use Rattle.clock_bank.specs.Faults.{or_fault, unless, thread_entry_fault, slot_entry_fault, advance_fault};

use crate::counts::BankCounts;
use crate::fault::BankFault;
use crate::slots::Slots;

pub trait Bank {
    // a row for each thread and a row for each slot
    ghost rows: { Self → Rows };

    // How many threads, and so entries in a row.
    fn thread_count(&self) -> u16
        ensures { result ≡ length (rows self.now).threads };

    fn slot_count(&self) -> u32
        ensures { result ≡ length (rows self.now).slots };

    // An entry of a thread's row.
    fn thread_entry(&self, thread: u16, column: u16) -> Result<u32, BankFault>
        ensures { result ≡ or_fault (thread_entry_fault (rows self.now) thread column) (entry (rows self.now).threads thread column) };

    // An entry of a slot's row.
    fn slot_entry(&self, slot: u32, column: u16) -> Result<u32, BankFault>
        ensures { result ≡ or_fault (slot_entry_fault (rows self.now) slot column) (entry (rows self.now).slots slot column) };

    // The thread's own entry grows by one; then it takes from a slot, then posts to one, where they are given. The
    // thread is an event's, and the slots are what a rule tells of it.
    fn advance(&mut self, thread: u16, slots: Slots) -> Result<(), BankFault>
        ensures answer { result ≡ or_fault (advance_fault (rows self.old) thread slots.take slots.post) tt }
        ensures after { rows self.new ≡ unless (advance_fault (rows self.old) thread slots.take slots.post) (advanced (rows self.old) thread slots.take slots.post) (rows self.old) };

    // Both counts.
    final fn counts(&self) -> BankCounts
        ensures threads { result.threads ≡ length (rows self.now).threads }
        ensures slots { result.slots ≡ length (rows self.now).slots }
    {
        BankCounts {
            threads: self.thread_count(),
            slots: self.slot_count(),
        }
    }

    // every row has a number for each thread
    ghost shaped: { (b : Self) → Shaped (rows b) };
}
