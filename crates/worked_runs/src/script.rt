// The lines of this program's script. What both programs' scripts have is in `run_script`; a line is told apart here, as
// the two have other kinds of lines and other words for what is missing.
use anyhow::bail;
use events::event::Event;
use orders::counts::Counts;
use run_script::fault::ScriptError;
use run_script::words::{next_counts, next_event, next_word, order_line};
use std::alloc::{AllocError, Global};

#[derive(Drop)]
pub struct Run {
    pub name: String,
    pub counts: Counts,
    pub events: Vec<Event>,
}

impl Run {
    pub fn new(heap: Global, name: &str, counts: Counts) -> Result<Run, AllocError> {
        Ok(Run {
            name: String::from_str(heap, name)?,
            counts,
            events: Vec::new(heap),
        })
    }
}

// What is expected of a run under an order; ? where nothing is.
#[derive(Clone, Copy)]
pub struct Expected<'a> {
    // a time for each event
    pub times: &'a str,
    pub pairs: &'a str,
}

#[derive(Clone, Copy)]
pub enum Line<'a> {
    // an empty line, or a comment
    Nothing,
    // a run's name and its counts
    Run(&'a str, Counts),
    Event(Event),
    // an order's number, and what is expected
    Order(u16, Expected<'a>),
}

// `NAME threads K locks L variables X`
fn parse_run(rest: &str) -> anyhow::Result<Line> {
    let mut words = rest.split_whitespace();
    let name = next_word(&mut words)?;
    match next_counts(&mut words) {
        Ok(counts) => Ok(Line::Run(name, counts)),
        Err(ScriptError::OtherLabel) => bail!("a count has another label"),
        Err(fault) => Err(fault.into()),
    }
}

// `R times .. / pairs ..`
fn parse_order(rest: &str) -> anyhow::Result<Line> {
    let line = order_line(rest)?;
    Ok(Line::Order(
        line.number.parse::<u16>()?,
        Expected {
            times: line.times,
            pairs: line.pairs,
        },
    ))
}

pub fn parse(line: &str) -> anyhow::Result<Line> {
    if line.is_empty() || line.starts_with('#') {
        return Ok(Line::Nothing);
    }
    if let Some(rest) = line.strip_prefix("run ") {
        return parse_run(rest);
    }
    if let Some(rest) = line.strip_prefix("order ") {
        return parse_order(rest);
    }
    Ok(Line::Event(next_event(&mut line.split_whitespace())?))
}
