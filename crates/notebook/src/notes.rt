// Note: an event more, with its stamp and its pairs. Numbers are cast by `as`, which the check proves to lose
// nothing. An event, its stamp and its position are passed side by side: of a struct that held the lent stamp each clause
// would have to say whether it means the value at entry or at exit. `Timed` is asked by those that read the log, which is
// not theirs: it follows from the notebook's invariant.
ghost use Rattle.std.specs.Prelude.{◌≡◌, ◌+◌, ◌*◌, ◌<◌, ◌≤◌, [], length, slice_index_or};
ghost use Rattle.keep_list.specs.Kept.{all_added};
ghost use Rattle.clock_bank.specs.Faults.{or_fault, unless};
ghost use Rattle.orders.specs.Stamps.{moved, unseen_by, pairs_with};
ghost use Rattle.notebook.specs.Books.{logged_events, events};
ghost use Rattle.notebook.specs.Notes.{move_fault, noted, Note};
ghost use Rattle.notebook.specs.Parts.{Timed, stamped, Admitted, LockBelow, locks_after};
ghost use Rattle.notebook.specs.Tables.{written};
ghost use Rattle.notebook.specs.View.{book};

use crate::fault::NotebookFault;
use crate::lock::Lock;
use crate::log::LoggedEvent;
use crate::notebook::Notebook;
use crate::tables::Tables;
use clock_bank::bank::Bank;
use clock_bank::fault::BankFault;
use events::event::{Event, Operation};
use events::rule::Rule;
use keep_list::KeepList;
use orders::pair::PositionPair;

// Writes a thread's row of the bank into a row. A column fits its 16 bits, as a row has few.
fn write_row<B: Bank>(row: &mut [u32], bank: &B, thread: u16)
    requires thread_in_bounds { thread < length (B.Bank.rows bank.now).threads }
    requires row_len { length row.old ≡ length (B.Bank.rows bank.now).threads }
    requires few { length row.old ≤ 32 }
    ensures { row.new ≡ slice_index_or (B.Bank.rows bank.now).threads thread [] }
{
    for (column, number) in row.iter_mut().enumerate() {
        *number = bank.thread_entry(thread, column as u16).unwrap();
    }
}

// Whether the event at an earlier position is unseen by a later one with this stamp.
fn races(log: &mut KeepList<LoggedEvent>, earlier: u16, event: Event, stamp: &[u32]) -> bool
    requires timed { Timed log.old (length stamp.now) (earlier + 1) }
    ensures same { log.new ≡ log.old }
    ensures value { result ≡ unseen_by (logged_events log.old) event stamp.now earlier }
{
    let logged = log.get(earlier as u32).unwrap();
    logged.unseen_by(event, stamp[logged.event.thread as usize])
}

// Adds the pairs of the event at `position`, with this stamp, with all earlier ones. A keep-list tells its records by
// their indices, and the positions are what a pair is made of.
fn scan(
    log: &mut KeepList<LoggedEvent>,
    pairs: &mut KeepList<PositionPair>,
    event: Event,
    stamp: &[u32],
    position: u16,
)
    requires timed { Timed log.old (length stamp.now) position }
    ensures same { log.new ≡ log.old }
    ensures added { pairs.new ≡ all_added pairs.old (pairs_with (unseen_by (logged_events log.old) event stamp.now) position position) }
{
    // the pairs with the positions passed are added, and nothing else has changed
    for earlier in 0..position {
        if races(log, earlier, event, stamp) {
            pairs.add(PositionPair {
                earlier,
                later: position,
            });
        }
    }
}

// The longest stamp that is written in place where nothing is compared with it.
const SHORT_STAMP: usize = 8;

impl<'a> Tables<'a> {
    // Writes the stamp of the event at `position`, and adds its pairs. An acquire or a release conflicts with nothing,
    // so that nothing has to be passed.
    fn stamp(&mut self, event: Event, position: u16, stamp: &[u32])
        requires timed { Timed self.old.log (length stamp.now) position }
        requires in_bounds { position * length stamp.now + length stamp.now ≤ length self.old.stamps.now }
        ensures { written self.new ≡ stamped (written self.old) event stamp.now (length stamp.now) position }
    {
        let start = position as usize * stamp.len();
        self.stamps[start..start + stamp.len()].copy_from_slice(stamp);
        if event.operation.is_access() {
            scan(&mut self.log, &mut self.pairs, event, stamp, position);
        }
    }

    // The same, where the stamp is the thread's row of the bank. It is read into an array, with which an access is
    // compared, and from which a long one is copied fast; a short one that nothing is compared with does without.
    fn stamp_from<B: Bank>(&mut self, bank: &B, event: Event, position: u16)
        requires timed { Timed self.old.log (length (B.Bank.rows bank.now).threads) position }
        requires thread_in_bounds { event.thread < length (B.Bank.rows bank.now).threads }
        requires few { length (B.Bank.rows bank.now).threads ≤ 32 }
        requires in_bounds { position * length (B.Bank.rows bank.now).threads + length (B.Bank.rows bank.now).threads ≤ length self.old.stamps.now }
        ensures { written self.new ≡ stamped (written self.old) event (slice_index_or (B.Bank.rows bank.now).threads event.thread []) (length (B.Bank.rows bank.now).threads) position }
    {
        let width = bank.thread_count() as usize;
        if !event.operation.is_access() && width <= SHORT_STAMP {
            let start = position as usize * width;
            write_row(&mut self.stamps[start..start + width], bank, event.thread);
        } else {
            let mut row = [0; 32];
            let stamp = &mut row[..width];
            write_row(stamp, bank, event.thread);
            self.stamp(event, position, stamp);
        }
    }
}

// What an event does to its lock, which its operation names.
fn change_lock(locks: &mut [Lock; 256], event: Event)
    requires { LockBelow 256 event.operation }
    ensures { locks.new ≡ locks_after locks.old event.thread event.operation }
{
    match event.operation {
        Operation::Read(_) | Operation::Write(_) => {}
        Operation::Acquire(l) | Operation::Release(l) => locks[l as usize].change(event),
    }
}

impl<'a> Notebook<'a> {
    // Writes down an event whose thread has its new row in the bank, and answers its position.
    fn enter<B: Bank>(&mut self, bank: &B, event: Event) -> u16
        requires bank_len { length (B.Bank.rows bank.now).threads ≡ self.old.counts.threads }
        requires admitted { Admitted (book self.old) event }
        ensures position { result ≡ length (events (book self.old)) }
        ensures after { book self.new ≡ noted (book self.old) event (slice_index_or (B.Bank.rows bank.now).threads event.thread []) }
    {
        let position = self.tables.log.total() as u16;
        self.tables.stamp_from(bank, event, position);
        let time = self.seen[event.thread as usize] + 1;
        self.seen[event.thread as usize] = time;
        self.tables.log.add(LoggedEvent { event, time });
        change_lock(&mut self.locks, event);
        position
    }
}

// Moves a bank by an event, as the rule says with so many locks. The rule is passed for its type.
fn follow<B: Bank, R: Rule>(
    bank: &mut B,
    _rule: &R,
    event: Event,
    locks: u16,
) -> Result<(), BankFault>
    ensures answer { result ≡ or_fault (move_fault R.Rule.means locks (B.Bank.rows bank.old) event) tt }
    ensures after { B.Bank.rows bank.new ≡ unless (move_fault R.Rule.means locks (B.Bank.rows bank.old) event) (moved R.Rule.means locks (B.Bank.rows bank.old) event) (B.Bank.rows bank.old) }
{
    bank.advance(event.thread, R::slots(event.operation, locks))
}

// Advances the bank by the rule's slots, logs the event with its stamp, and adds its pairs with earlier events; the
// answer is its position.
pub fn note<B: Bank, R: Rule>(
    bank: &mut B,
    notebook: &mut Notebook,
    rule: &R,
    event: Event,
) -> Result<u16, NotebookFault>
    ensures { Note R.Rule.means (B.Bank.rows bank.old) (book notebook.old) event result (B.Bank.rows bank.new) (book notebook.new) }
{
    notebook.check_fit(bank.counts(), R::NUMBER)?;
    notebook.check_event(event)?;
    follow(bank, rule, event, notebook.counts.locks)?;
    Ok(notebook.enter(bank, event))
}
