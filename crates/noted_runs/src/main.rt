// Notes the worked runs that it reads from standard input into a notebook, over the flat bank and under the order that
// each line names; asks the notebook every question; and prints what it answers, and whether that is as expected.
#![tactic(auto)]

mod script;
mod session;

use anyhow::bail;
use clock_bank::bank::Bank;
use clock_bank::counts::{BankCounts, MOST_SLOTS, MOST_THREADS};
use clock_bank::fault::BankFault;
use events::happens_before::HappensBefore;
use events::rule::Rule;
use events::schedulable::Schedulable;
use flat_bank::FlatBank;
use notebook::Notebook;
use notebook::fault::NotebookFault;
use orders::counts::Counts;
use run_script::order::Order;
use run_script::tally::Tally;
use run_script::words::next_word;
use script::{Expected, Line, Refusals, Run, Step, parse};
use session::{Memory, Refusal, Session};
use std::str::SplitWhitespace;

const LARGEST_BANK: BankCounts = BankCounts {
    threads: MOST_THREADS,
    slots: MOST_SLOTS,
};

// Prints what comes of runs, in this program's format, and counts how much of it is as expected. What is shown of an
// order is what its line brings, read into three values.
#[derive(Drop)]
struct Report<'a> {
    rt: &'a HostRuntime,
    tally: Tally,
    // what is expected of questions past the end
    past: String,
}

impl<'a> Report<'a> {
    // Prints a step and what came of it; `times` has what is expected of the events that are accepted.
    fn show_step<B: Bank, R: Rule>(
        &mut self,
        session: &mut Session<'_, B, R>,
        step: Step,
        outcome: Option<Result<u16, NotebookFault>>,
        times: &mut SplitWhitespace<'_>,
    ) -> anyhow::Result<()> {
        match (step, outcome) {
            (Step::Note(event, None), Some(Ok(position))) => {
                let time = session.time_text(position)?;
                let verdict = self.tally.compare(&time, next_word(times)?);
                println!(self.rt; "  {event}: {time}{verdict}")?;
                self.tally.check(session.tells(position, event));
            }
            (Step::Note(event, Some(number)), Some(Err(fault))) => {
                let found = fault.number();
                println!(self.rt; "  {event}: refused {found}")?;
                self.tally.check(found == number);
            }
            (Step::Note(event, _), _) => {
                println!(self.rt; "  {event}: accepted or refused, and it should not be")?;
                self.tally.check(false);
            }
            (Step::Again(count), Some(Ok(position))) => println!(self.rt;
                "  the same {count} times more, the last at position {position}"
            )?,
            (Step::Again(_), outcome) => {
                // 0 where there was nothing to note
                let number = outcome
                    .and_then(|noted| noted.err())
                    .map_or(0, NotebookFault::number);
                println!(self.rt; "  the same again: refused {number}")?;
                self.tally.check(false);
            }
        }
        Ok(())
    }

    // Prints what came of the steps of a run.
    fn show_steps<B: Bank, R: Rule>(
        &mut self,
        session: &mut Session<'_, B, R>,
        run: &Run,
        outcomes: &[Option<Result<u16, NotebookFault>>],
        times: &str,
    ) -> anyhow::Result<()> {
        let mut times = times.split_whitespace();
        for (step, outcome) in run.steps.iter().zip(outcomes.iter()) {
            self.show_step(session, *step, *outcome, &mut times)?;
        }
        if times.next().is_some() {
            bail!("more times are expected than there are events");
        }
        Ok(())
    }

    // Asks the questions, and prints the answers.
    fn show_answers<B: Bank, R: Rule>(
        &mut self,
        session: &mut Session<'_, B, R>,
        expected: Expected,
    ) -> anyhow::Result<()> {
        let pairs = session.pair_text(64)?;
        let verdict = self.tally.compare(&pairs, expected.pairs);
        println!(self.rt; "  pairs {pairs}{verdict}")?;
        let events = session.notebook.event_count();
        let before = session.before_text(events.min(16))?;
        let verdict = self.tally.compare(&before, expected.before);
        println!(self.rt; "  before {before}{verdict}")?;
        let found = session.past_text()?;
        let verdict = self.tally.compare(&found, &self.past);
        println!(self.rt; "  events {events}, past the end: {found}{verdict}")?;
        self.tally.add_order(u32::from(events));
        Ok(())
    }

    fn show_run<R: Rule + Drop>(
        &mut self,
        rule: R,
        run: &Run,
        memory: &mut Memory,
        expected: Expected,
    ) -> anyhow::Result<()> {
        let Memory {
            rows,
            log,
            stamps,
            pairs,
        } = memory;
        let mut session = Session {
            heap: self.rt.alloc(),
            bank: FlatBank::new(BankCounts::from(run.counts), rows),
            notebook: Notebook::new(run.counts, R::NUMBER, log, stamps, pairs),
            rule,
        };
        let outcomes = session.act_all(run)?;
        self.show_steps(&mut session, run, &outcomes, expected.times)?;
        self.show_answers(&mut session, expected)
    }

    // The run and the order's number are printed, and the memory is there, before an order is looked for.
    fn show_order(&mut self, run: &Run, number: u16, expected: Expected) -> anyhow::Result<()> {
        println!(self.rt; "run {} order {number}", run.name)?;
        let mut memory = Memory::new(self.rt.alloc(), run)?;
        match Order::try_from(number)? {
            Order::HappensBefore => self.show_run(HappensBefore, run, &mut memory, expected),
            Order::Schedulable => self.show_run(Schedulable, run, &mut memory, expected),
        }
    }

    // Whether a bank and a notebook can have these counts.
    fn show_check(&mut self, counts: Counts, expected: Refusals) -> anyhow::Result<()> {
        let heap = self.rt.alloc();
        let rows = vec![in heap; 0u32; FlatBank::places(LARGEST_BANK)]?;
        let bank = FlatBank::check(BankCounts::from(counts), &rows);
        let bank = Refusal(bank.err().map(BankFault::number)).to_string(heap)?;
        let notebook = Refusal::of(Notebook::check(counts)).to_string(heap)?;
        let by_bank = self.tally.compare(&bank, expected.bank);
        let by_notebook = self.tally.compare(&notebook, expected.notebook);
        println!(self.rt;
            "threads {} locks {} variables {}: bank {bank}{by_bank}, notebook {notebook}{by_notebook}",
            counts.threads, counts.locks, counts.variables
        )?;
        Ok(())
    }

    fn run_all(&mut self) -> anyhow::Result<()> {
        let heap = self.rt.alloc();
        let mut run = Run::new(heap, "", Counts::default())?;
        for line in self.rt.lines(heap) {
            let line = line?;
            match parse(&line)? {
                Line::Nothing => {}
                Line::Check(counts, expected) => self.show_check(counts, expected)?,
                Line::Past(numbers) => self.past = String::from_str(heap, numbers)?,
                Line::Run(name, counts) => run = Run::new(heap, name, counts)?,
                Line::Room(room) => run.room = room,
                Line::Step(step) => run.steps.push(step)?,
                Line::Order(number, expected) => self.show_order(&run, number, expected)?,
            }
        }
        println!(self.rt; "{}", self.tally)?;
        Ok(())
    }
}

fn main(rt: HostRuntime) -> anyhow::Result<()> {
    let mut report = Report {
        rt: &rt,
        tally: Tally::default(),
        past: String::from_str(rt.alloc(), "?")?,
    };
    report.run_all()
}
