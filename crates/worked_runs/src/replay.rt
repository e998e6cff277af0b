// A run through a bank: the times of its events, and the pairs that the times leave without an order.
use crate::script::Run;
use anyhow::{anyhow, bail};
use clock_bank::bank::Bank;
use clock_bank::counts::BankCounts;
use clock_bank::fault::BankFault;
use events::event::Event;
use events::happens_before::HappensBefore;
use events::rule::Rule;
use events::schedulable::Schedulable;
use flat_bank::FlatBank;
use run_script::order::Order;
use std::alloc::{AllocError, Global};

// These words stand for every reason that a bank has. They are made only where there is a refusal, as an error of this
// kind is large.
fn refused(_fault: BankFault) -> anyhow::Error {
    anyhow!("the bank refuses an event")
}

// The row of a thread.
fn row<B: Bank>(heap: Global, bank: &B, thread: u16) -> anyhow::Result<Vec<u32>> {
    (0..bank.thread_count())
        .map(|column| bank.thread_entry(thread, column).map_err(refused))
        .try_collect(heap)
}

// An event with its local time, and with its time, a number for each thread. No local time passes 16 bits, as a bank takes
// no more events of a thread.
#[derive(Drop)]
pub struct TimedEvent {
    pub event: Event,
    pub local: u16,
    pub time: Vec<u32>,
}

impl TimedEvent {
    // Whether a later event conflicts with this one, and its time does not reach this one's local time.
    fn is_unseen_by(&self, later: &TimedEvent) -> bool {
        if !self.event.conflicts_with(later.event) {
            return false;
        }
        let known = later.time.get(usize::from(self.event.thread)).copied();
        u32::from(self.local) > known.unwrap_or(0)
    }
}

// Counts an event more of a thread, and answers how many there are.
fn count_one(counts: &mut [u16], thread: u16) -> u16 {
    match counts.get_mut(usize::from(thread)) {
        Some(count) => {
            *count = count.saturating_add(1);
            *count
        }
        None => 0,
    }
}

// Advances the bank by each event's slots; the rows are the times of the events.
fn advance_all<B: Bank, R: Rule>(
    heap: Global,
    bank: &mut B,
    run: &Run,
) -> anyhow::Result<Vec<TimedEvent>> {
    let mut events = Vec::new(heap);
    let mut counts = vec![in heap; 0u16; usize::from(bank.thread_count())]?;
    for event in run.events.iter().copied() {
        let slots = R::slots(event.operation, run.counts.locks);
        bank.advance(event.thread, slots).map_err(refused)?;
        let local = count_one(&mut counts, event.thread);
        let time = row(heap, bank, event.thread)?;
        events.push(TimedEvent { event, local, time })?;
    }
    Ok(events)
}

// The events of a run with their times. The counts are checked before the order's number is.
pub fn replay(heap: Global, run: &Run, number: u16) -> anyhow::Result<Vec<TimedEvent>> {
    let counts = BankCounts::from(run.counts);
    let mut table = vec![in heap; 0u32; FlatBank::places(counts)]?;
    if FlatBank::check(counts, &table).is_err() {
        bail!("the run's counts are outside the limits of a bank");
    }
    let mut bank = FlatBank::new(counts, &mut table);
    match Order::try_from(number)? {
        Order::HappensBefore => advance_all::<_, HappensBefore>(heap, &mut bank, run),
        Order::Schedulable => advance_all::<_, Schedulable>(heap, &mut bank, run),
    }
}

// The pairs as text to be compared, as 0-1 0-2, or none: of each event with the earlier ones that it leaves unseen. They
// can be many, so that each is written down at once, and no list of them is kept.
pub fn pair_text(heap: Global, events: &[TimedEvent]) -> Result<String, AllocError> {
    let mut text = String::new(heap);
    for (later, this) in events.iter().enumerate() {
        for (earlier, other) in events.iter().take(later).enumerate() {
            if other.is_unseen_by(this) {
                text.push_str(&format!(in heap; " {earlier}-{later}")?)?;
            }
        }
    }
    String::from_str(heap, text.strip_prefix(" ").unwrap_or("none"))
}
