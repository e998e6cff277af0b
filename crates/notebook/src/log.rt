// The log's records. Numbers are cast by `as`, which the check proves to lose nothing.
ghost use Rattle.std.specs.Prelude.{◌≡◌, ◌&&◌, nat_lt};
ghost use Rattle.events.specs.Conflicts.{conflicts};

use events::event::Event;

// An event with its local time: the number of its thread's events up to it, itself included.
#[derive(Clone, Copy, PartialEq, Eq, Debug)]
pub struct LoggedEvent {
    pub event: Event,
    pub time: u16,
}

impl LoggedEvent {
    // Whether it conflicts with a later event, and that one's stamp, `known` at this one's thread, is below its time.
    pub fn unseen_by(self, later: Event, known: u32) -> bool
        ensures { result ≡ conflicts self.event later && nat_lt known self.time }
    {
        self.event.conflicts_with(later) && known < self.time as u32
    }
}
