// The questions of a notebook. They take it for writing, as its keep-lists do, and promise no change. Numbers are
// cast by `as`, which the check proves to lose nothing.
ghost use Rattle.std.specs.Prelude.{◌≡◌, length};
ghost use Rattle.notebook.specs.Books.{events};
ghost use Rattle.notebook.specs.Runs.{InEveryRun};
ghost use Rattle.notebook.specs.Questions.{event_answer, stamp_answer, before_answer, pair_answer, KeepsAccount, TellsTime, TellsOrder, TellsTotal, TellsPair};
ghost use Rattle.notebook.specs.View.{book};
ghost use Rattle.std.specs.Option.{ok_or};
ghost use Rattle.std.specs.List.{slice_get};
ghost use Rattle.keep_list.specs.Kept.{records};
ghost use Rattle.notebook.specs.declared.fault.NotebookFault.TheVariants.{NoPosition};

use crate::fault::NotebookFault;
use crate::log::LoggedEvent;
use crate::notebook::Notebook;
use events::event::Event;
use orders::pair::PositionPair;

impl<'a> Notebook<'a> {
    // How many events are noted.
    pub fn event_count(&mut self) -> u16
        ensures same { book self.new ≡ book self.old }
        ensures value { result ≡ length (events (book self.old)) }
        ensures account { InEveryRun self.old (λ _ log. KeepsAccount self.old log) }
    {
        self.tables.log.total() as u16
    }

    // The record of the event at a position.
    fn record_at(&mut self, position: u16) -> Result<LoggedEvent, NotebookFault>
        ensures same { book self.new ≡ book self.old }
        ensures value { result ≡ ok_or (slice_get (records (book self.old).tables.log) position) NoPosition }
    {
        self.tables
            .log
            .get(position as u32)
            .ok_or(NotebookFault::NoPosition)
    }

    // The event at a position.
    pub fn event(&mut self, position: u16) -> Result<Event, NotebookFault>
        ensures same { book self.new ≡ book self.old }
        ensures value { result ≡ event_answer (book self.old) position }
    {
        let logged = self.record_at(position)?;
        Ok(logged.event)
    }

    // How far the event at a position knows a thread: the number of that thread in its stamp.
    pub fn stamp(&mut self, position: u16, thread: u16) -> Result<u32, NotebookFault>
        ensures same { book self.new ≡ book self.old }
        ensures value { result ≡ stamp_answer (book self.old) position thread }
        ensures time { InEveryRun self.old (TellsTime position thread result self.old.counts) }
    {
        if position as u32 >= self.tables.log.total() {
            return Err(NotebookFault::NoPosition);
        }
        if thread >= self.counts.threads {
            return Err(NotebookFault::NoThread);
        }
        let start = position as usize * self.counts.threads as usize;
        Ok(self.tables.stamps[start + thread as usize])
    }

    // Whether the event at one position is before that at another, or is it.
    pub fn before(&mut self, first: u16, second: u16) -> Result<bool, NotebookFault>
        ensures same { book self.new ≡ book self.old }
        ensures value { result ≡ before_answer (book self.old) first second }
        ensures order { InEveryRun self.old (TellsOrder first second result self.old.counts) }
    {
        let logged = self.record_at(first)?;
        let known = self.stamp(second, logged.event.thread)?;
        Ok(logged.time as u32 <= known)
    }

    // How many pairs were found.
    pub fn pair_total(&mut self) -> u32
        ensures same { book self.new ≡ book self.old }
        ensures value { result ≡ (book self.old).tables.pairs.total }
        ensures all { InEveryRun self.old (TellsTotal result self.old.counts) }
    {
        self.tables.pairs.total()
    }

    // A pair that the table holds, by its index.
    pub fn pair(&mut self, index: u32) -> Result<PositionPair, NotebookFault>
        ensures same { book self.new ≡ book self.old }
        ensures value { result ≡ pair_answer (book self.old) index }
        ensures listed { InEveryRun self.old (TellsPair (length (book self.old).tables.pairs.table) index result self.old.counts) }
    {
        self.tables.pairs.get(index).ok_or(NotebookFault::NotHeld)
    }
}
