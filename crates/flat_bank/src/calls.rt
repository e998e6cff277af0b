// What an advance makes of the rows in a table, and what the flat bank does as a clock bank.
ghost use Rattle.std.specs.Prelude.{◌≡◌, ◌+◌, ◌*◌, ◌<◌, ◌≤◌, None, length, drop, slice_index};
ghost use Rattle.clock_bank.specs.Rows.{entry, larger, grown, joined, posted, advanced};
ghost use Rattle.clock_bank.specs.Runs.{run};
ghost use Rattle.clock_bank.specs.Faults.{or_fault, unless, step_fault, advance_fault};
ghost use Rattle.flat_bank.specs.Flat.{rows_in, flat_rows, places};
ghost use Rattle.flat_bank.specs.Shape.{flat_shaped};
ghost use Rattle.flat_bank.specs.View.{view, rest};

use crate::flat::FlatBank;
use clock_bank::bank::Bank;
use clock_bank::counts::BankCounts;
use clock_bank::fault::BankFault;
use clock_bank::slots::Slots;

// Each number becomes the larger of itself and the other row's.
#[tactic(auto, using(crate::proofs::Larger::joining))]
fn join(row: &mut [u32], other: &[u32])
    requires { length row.old ≡ length other.now }
    ensures { row.new ≡ larger row.old other.now }
{
    for (column, mine) in row.iter_mut().enumerate() {
        *mine = (*mine).max(other[column]);
    }
}

// An advance of a thread that is not refused, over its row and the rows of all slots.
#[tactic(auto, using(crate::proofs::RowsIn::one_row))]
fn advance_row(
    row: &mut [u32],
    slot_rows: &mut [u32],
    counts: BankCounts,
    thread: u16,
    slots: Slots,
)
    requires allowed { step_fault counts.threads counts.slots (slice_index row.old thread) thread slots.take slots.post ≡ None }
    requires width { length row.old ≡ counts.threads }
    requires fits { counts.slots * counts.threads ≤ length slot_rows.old }
    ensures row { row.new ≡ joined (rows_in counts.slots counts.threads slot_rows.old) slots.take (grown row.old thread) }
    ensures slot_rows { rows_in counts.slots counts.threads slot_rows.new ≡ posted (rows_in counts.slots counts.threads slot_rows.old) slots.post row.new }
    ensures behind { drop (counts.slots * counts.threads) slot_rows.new ≡ drop (counts.slots * counts.threads) slot_rows.old }
{
    let width = row.len();
    row[usize::from(thread)] += 1;
    if let Some(slot) = slots.take {
        let start = slot as usize * width;
        join(row, &slot_rows[start..start + width]);
    }
    if let Some(slot) = slots.post {
        let start = slot as usize * width;
        slot_rows[start..start + width].copy_from_slice(row);
    }
}

// The same over a whole table, with the rows of the threads before those of the slots.
#[tactic(auto, using(crate::proofs::RowsIn::all_rows))]
fn step(cells: &mut [u32], counts: BankCounts, thread: u16, slots: Slots)
    requires allowed { advance_fault (flat_rows counts.threads counts.slots cells.old) thread slots.take slots.post ≡ None }
    requires fits { places counts.threads counts.slots ≤ length cells.old }
    ensures rows { flat_rows counts.threads counts.slots cells.new ≡ advanced (flat_rows counts.threads counts.slots cells.old) thread slots.take slots.post }
    ensures behind { drop (places counts.threads counts.slots) cells.new ≡ drop (places counts.threads counts.slots) cells.old }
{
    let width = usize::from(counts.threads);
    let start = usize::from(thread) * width;
    let (thread_rows, slot_rows) = cells.split_at_mut(width * width);
    advance_row(
        &mut thread_rows[start..start + width],
        slot_rows,
        counts,
        thread,
        slots,
    );
}

impl<'a> FlatBank<'a> {
    // Row `number` of the table.
    fn row(&self, number: usize) -> &[u32]
        requires { number < self.now.counts.threads + self.now.counts.slots }
        ensures { result.now ≡ run (number * self.now.counts.threads) self.now.counts.threads self.now.cells.now }
    {
        let width = usize::from(self.counts.threads);
        let start = number * width;
        &self.cells[start..start + width]
    }

    // The thread's own entry; 0 where there is no such thread.
    fn own(&self, thread: u16) -> u32
        ensures { result ≡ entry (view self.now).threads thread thread }
    {
        self.thread_entry(thread, thread).unwrap_or(0)
    }
}

#[tactic(auto, using(crate::proofs::RowsIn::entries))]
impl<'a> Bank for FlatBank<'a> {
    ghost rows = { view };

    ghost shaped = { λ b. flat_shaped b.counts.threads b.counts.slots b.cells.now b.fits };

    fn thread_count(&self) -> u16 {
        self.counts.threads
    }

    fn slot_count(&self) -> u32 {
        self.counts.slots
    }

    fn thread_entry(&self, thread: u16, column: u16) -> Result<u32, BankFault> {
        if thread >= self.counts.threads || column >= self.counts.threads {
            return Err(BankFault::NoThread);
        }
        Ok(self.row(usize::from(thread))[usize::from(column)])
    }

    fn slot_entry(&self, slot: u32, column: u16) -> Result<u32, BankFault> {
        if slot >= self.counts.slots {
            return Err(BankFault::NoSlot);
        }
        if column >= self.counts.threads {
            return Err(BankFault::NoThread);
        }
        let number = usize::from(self.counts.threads) + slot as usize;
        Ok(self.row(number)[usize::from(column)])
    }

    fn advance(&mut self, thread: u16, slots: Slots) -> Result<(), BankFault>
        ensures answer { result ≡ or_fault (advance_fault (view self.old) thread slots.take slots.post) tt }
        ensures after { view self.new ≡ unless (advance_fault (view self.old) thread slots.take slots.post) (advanced (view self.old) thread slots.take slots.post) (view self.old) }
        ensures behind { rest self.new ≡ rest self.old }
    {
        self.counts.check_advance(self.own(thread), thread, slots)?;
        step(self.cells, self.counts, thread, slots);
        Ok(())
    }
}
