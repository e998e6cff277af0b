// Runs the worked runs that it reads from standard input through the flat bank, under the order that each
// line names, and prints every event's time, the pairs that race, and whether they are as expected.
#![tactic(auto)]

mod replay;
mod script;

use anyhow::bail;
use orders::counts::Counts;
use replay::{TimedEvent, pair_text, replay};
use run_script::lists::time_text;
use run_script::tally::Tally;
use run_script::words::next_word;
use script::{Expected, Line, Run, parse};

// Prints what comes of runs, in this program's format, and counts how much of it is as expected. What is shown of an
// order is what its line brings, read into three values.
#[derive(Drop)]
struct Report<'a> {
    rt: &'a HostRuntime,
    tally: Tally,
}

impl<'a> Report<'a> {
    fn show_times(&mut self, expected: &str, events: &[TimedEvent]) -> anyhow::Result<()> {
        let mut expected = expected.split_whitespace();
        for timed in events {
            let event = timed.event;
            let time = time_text(self.rt.alloc(), &timed.time)?;
            let verdict = self.tally.compare(&time, next_word(&mut expected)?);
            println!(self.rt; "  {event}: {time}{verdict}")?;
        }
        if expected.next().is_some() {
            bail!("more times are expected than there are events");
        }
        Ok(())
    }

    fn show_order(&mut self, run: &Run, number: u16, expected: Expected) -> anyhow::Result<()> {
        let heap = self.rt.alloc();
        let events = replay(heap, run, number)?;
        println!(self.rt; "run {} order {number}", run.name)?;
        self.show_times(expected.times, &events)?;
        let pairs = pair_text(heap, &events)?;
        let verdict = self.tally.compare(&pairs, expected.pairs);
        println!(self.rt; "  pairs {pairs}{verdict}")?;
        let count = u32::try_from(events.len()).unwrap_or(u32::MAX);
        self.tally.add_order(count);
        Ok(())
    }

    fn run_all(&mut self) -> anyhow::Result<()> {
        let heap = self.rt.alloc();
        let mut run = Run::new(heap, "", Counts::default())?;
        for line in self.rt.lines(heap) {
            let line = line?;
            match parse(&line)? {
                Line::Nothing => {}
                Line::Run(name, counts) => run = Run::new(heap, name, counts)?,
                Line::Event(event) => run.events.push(event)?,
                Line::Order(number, expected) => self.show_order(&run, number, expected)?,
            }
        }
        println!(self.rt; "{}", self.tally)?;
        Ok(())
    }
}

fn main(rt: HostRuntime) -> anyhow::Result<()> {
    let mut report = Report {
        rt: &rt,
        tally: Tally::default(),
    };
    report.run_all()
}
