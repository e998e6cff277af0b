ghost use Rattle.std.specs.Prelude.{length};
ghost use Rattle.notebook.specs.Sound.{Sound};

use crate::lock::Lock;
use crate::tables::Tables;
use orders::counts::Counts;

// Notes events under one rule, known by its number. What it holds beside its tables follows from the log: who holds
// each lock, and how many events each thread has. It has no heap: its memory is fixed, or lent to it.
#[derive(Drop)]
pub struct Notebook<'a> {
    pub(crate) counts: Counts,
    pub(crate) rule: u16,
    pub(crate) locks: [Lock; 256],
    pub(crate) seen: [u16; 32],
    pub(crate) tables: Tables<'a>,
    ghost sound: { Sound counts locks seen tables.log (length tables.stamps.now) },
}
