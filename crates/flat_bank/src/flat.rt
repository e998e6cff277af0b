// The flat bank itself: what it stands on, and how one is made.
ghost use Rattle.std.specs.Prelude.{◌≡◌, ◌+◌, ◌*◌, ◌≤◌, length};
ghost use Rattle.flat_bank.specs.Flat.{places, flat_fault, cleared};

use clock_bank::counts::BankCounts;
use clock_bank::fault::BankFault;

// The table has a row for each thread, then a row for each slot; what lies behind them is not used.
#[derive(Drop)]
pub struct FlatBank<'a> {
    pub(crate) counts: BankCounts,
    pub(crate) cells: &'a mut [u32],
    ghost few: { counts.threads ≤ 32 },
    ghost some: { counts.slots ≤ 1280 },
    ghost fits: { (counts.threads + counts.slots) * counts.threads ≤ length cells.now },
}

// The first `count` numbers become 0.
fn clear(cells: &mut [u32], count: usize)
    requires { count ≤ length cells.old }
    ensures { cells.new ≡ cleared count cells.old }
{
    cells[..count].fill(0);
}

impl<'a> FlatBank<'a> {
    ghost use Rattle.clock_bank.specs.Rows.{fresh};
    ghost use Rattle.clock_bank.specs.Faults.{or_fault, unless};
    ghost use Rattle.flat_bank.specs.View.{view};

    // How many numbers the table of such a bank needs.
    pub fn places(counts: BankCounts) -> usize
        ensures { result ≡ places counts.threads counts.slots }
    {
        let width = usize::from(counts.threads);
        (width + counts.slots as usize) * width // no `From` widens 32 bits
    }

    // Whether a bank of these counts can stand on this table.
    pub fn check(counts: BankCounts, table: &[u32]) -> Result<(), BankFault>
        ensures { result ≡ or_fault (flat_fault counts.threads counts.slots table.now) tt }
    {
        counts.check(FlatBank::places(counts), table.len())
    }

    // A fresh bank; where the check fails, one of no threads and no slots, and the table is left as it was.
    #[tactic(auto, using(crate::proofs::RowsIn::fresh_rows))]
    pub fn new(counts: BankCounts, table: &'a mut [u32]) -> FlatBank<'a>
        ensures rows { view result ≡ unless (flat_fault counts.threads counts.slots table.old) (fresh counts.threads counts.slots) (fresh 0 0) }
        ensures cells { result.cells.now ≡ unless (flat_fault counts.threads counts.slots table.old) (cleared (places counts.threads counts.slots) table.old) table.old }
    {
        if FlatBank::check(counts, table).is_err() {
            return FlatBank {
                counts: BankCounts::default(),
                cells: table,
            };
        }
        clear(table, FlatBank::places(counts));
        FlatBank {
            counts,
            cells: table,
        }
    }
}
