// The tables that a notebook is lent. Numbers are cast by `as`, which the check proves to lose nothing.
ghost use Rattle.std.specs.Prelude.{◌≡◌, ◌+◌, ◌*◌, ◌&&◌, length, nat_le, nat_lt};
ghost use Rattle.notebook.specs.Tables.{written};

use crate::log::LoggedEvent;
use keep_list::KeepList;
use orders::pair::PositionPair;

// The most events of a log: positions have 16 bits.
const MOST_EVENTS: usize = 65535;

#[derive(Drop)]
pub struct Tables<'a> {
    pub log: KeepList<'a, LoggedEvent>,
    // a row of numbers for each event, one behind the other
    pub stamps: &'a mut [u32],
    pub pairs: KeepList<'a, PositionPair>,
}

impl<'a> Tables<'a> {
    // Whether log and stamps have room for one event more, and there are fewer than the most.
    pub(crate) fn has_room(&mut self, threads: u16) -> bool
        ensures same { written self.new ≡ written self.old }
        ensures value { result ≡ (nat_lt self.old.log.total (length self.old.log.table) && nat_le (self.old.log.total * threads + threads) (length self.old.stamps.now)) && nat_lt self.old.log.total 65535 }
    {
        let events = self.log.total() as usize;
        let places = self.log.places();
        let width = threads as usize;
        events < places && events * width + width <= self.stamps.len() && events < MOST_EVENTS
    }
}
