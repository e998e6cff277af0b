// A run noted into a notebook, and what the notebook answers. A question takes the notebook for writing, so its answers
// are texts that a method makes, and none is a `Display`.
use crate::script::{Run, Step};
use anyhow::anyhow;
use clock_bank::bank::Bank;
use clock_bank::counts::BankCounts;
use events::event::{Event, Operation};
use events::rule::Rule;
use flat_bank::FlatBank;
use itertools::Itertools;
use notebook::fault::NotebookFault;
use notebook::log::LoggedEvent;
use notebook::{Notebook, note};
use orders::pair::PositionPair;
use run_script::lists::{listed, time_text};
use std::alloc::{AllocError, Global};
use std::fmt;

// The number of a refusal, or none.
#[derive(Clone, Copy)]
pub struct Refusal(pub Option<u16>);

impl fmt::Display for Refusal {
    fn fmt<W: fmt::Write>(&self, f: &mut fmt::Formatter<W>) -> fmt::Result {
        match self.0 {
            None => write!(f, "none"),
            Some(number) => write!(f, "{number}"),
        }
    }
}

impl Refusal {
    // What there is of it in a notebook's answer.
    pub fn of<T: Drop>(answer: Result<T, NotebookFault>) -> Refusal {
        Refusal(answer.err().map(NotebookFault::number))
    }
}

// What the tables hold before anything is noted.
const NO_EVENT: LoggedEvent = LoggedEvent {
    event: Event {
        thread: 0,
        operation: Operation::Read(0),
    },
    time: 0,
};

const NO_PAIR: PositionPair = PositionPair {
    earlier: 0,
    later: 0,
};

// What a bank and a notebook are lent for a run.
#[derive(Drop)]
pub struct Memory {
    pub rows: Vec<u32>,
    pub log: Vec<LoggedEvent>,
    pub stamps: Vec<u32>,
    pub pairs: Vec<PositionPair>,
}

impl Memory {
    pub fn new(heap: Global, run: &Run) -> Result<Memory, AllocError> {
        Ok(Memory {
            rows: vec![in heap; 0u32; FlatBank::places(BankCounts::from(run.counts))]?,
            log: vec![in heap; NO_EVENT; run.room.log]?,
            stamps: vec![in heap; 0u32; run.room.stamps]?,
            pairs: vec![in heap; NO_PAIR; run.room.pairs]?,
        })
    }
}

// A notebook, with the bank and the rule by which it notes.
#[derive(Drop)]
pub struct Session<'a, B, R> {
    pub heap: Global,
    pub bank: B,
    pub notebook: Notebook<'a>,
    pub rule: R,
}

impl<'a, B: Bank, R: Rule> Session<'a, B, R> {
    // The event's position, or why it is refused.
    fn note(&mut self, event: Event) -> Result<u16, NotebookFault> {
        note(&mut self.bank, &mut self.notebook, &self.rule, event)
    }

    // Does all steps of a run, before anything is printed of them.
    pub fn act_all(
        &mut self,
        run: &Run,
    ) -> Result<Vec<Option<Result<u16, NotebookFault>>>, AllocError> {
        let mut outcomes = Vec::new(self.heap);
        for (at, step) in run.steps.iter().enumerate() {
            outcomes.push(self.act(run, at, *step))?;
        }
        Ok(outcomes)
    }

    // Does the step at a position of a run. The outcome is that of the last event noted, if any is.
    pub fn act(&mut self, run: &Run, at: usize, step: Step) -> Option<Result<u16, NotebookFault>> {
        match step {
            Step::Note(event, _) => Some(self.note(event)),
            Step::Again(times) => {
                let mut last = None;
                // a repetition, whose number is used for nothing else
                for _ in 0..times {
                    for earlier in run.steps.iter().take(at) {
                        if let Step::Note(event, _) = earlier {
                            last = Some(self.note(*event));
                        }
                    }
                }
                last
            }
        }
    }

    // Whether the notebook tells this event at this position.
    pub fn tells(&mut self, position: u16, event: Event) -> bool {
        self.notebook.event(position) == Ok(event)
    }

    // The numbers of an event's stamp, as text.
    pub fn time_text(&mut self, position: u16) -> anyhow::Result<String> {
        let time: Vec<u32> = (0..self.bank.thread_count())
            .map(|thread| self
                .notebook
                .stamp(position, thread)
                .map_err(|_| anyhow!("an event has no stamp")))
            .try_collect(self.heap)?;
        Ok(time_text(self.heap, &time)?)
    }

    // The pairs that the notebook holds as text, as 0-1 0-2, and how many there are where it holds fewer.
    pub fn pair_text(&mut self, most: u32) -> Result<String, AllocError> {
        let heap = self.heap;
        let mut pieces: Vec<String> = (0..most)
            .map_while(|index| self.notebook.pair(index).ok())
            .map(|pair| pair.to_string(heap))
            .try_collect(heap)?;
        let total = self.notebook.pair_total();
        if total as usize > pieces.len() {
            pieces.push(format!(in heap; "of {total}")?)?;
        }
        listed(heap, &pieces)
    }

    // The positions below `end` that are before one another as text, as 0-1 0-2.
    pub fn before_text(&mut self, end: u16) -> Result<String, AllocError> {
        let heap = self.heap;
        let pieces: Vec<String> = (0..end)
            .cartesian_product(0..end)
            .filter(|(first, second)| {
                first != second && self.notebook.before(*first, *second) == Ok(true)
            })
            .map(|(first, second)| format!(in heap; "{first}-{second}"))
            .try_collect(heap)?;
        listed(heap, &pieces)
    }

    // Asks of the position behind the last and of the pair behind the last.
    pub fn past_text(&mut self) -> Result<String, AllocError> {
        let end = self.notebook.event_count();
        let event = Refusal::of(self.notebook.event(end));
        let stamp = Refusal::of(self.notebook.stamp(end, 0));
        let before = Refusal::of(self.notebook.before(end, end));
        let pairs = self.notebook.pair_total();
        let pair = Refusal::of(self.notebook.pair(pairs));
        format!(in self.heap; "event {event} stamp {stamp} before {before} pair {pair}")
    }
}
