// The lines of this program's script. What both programs' scripts have is in `run_script`; a line is told apart here, as
// the two have other kinds of lines and other words for what is missing.
use anyhow::{Context, bail};
use events::event::Event;
use orders::counts::Counts;
use run_script::words::{next_counts, next_event, next_labelled, next_word, order_line};
use std::alloc::{AllocError, Global};

// How many places the tables of a notebook have.
#[derive(Clone, Copy)]
pub struct Room {
    pub log: usize,
    pub stamps: usize,
    pub pairs: usize,
}

// The two things that a script can have done.
#[derive(Clone, Copy)]
pub enum Step {
    // note an event; it is refused by this number, or accepted
    Note(Event, Option<u16>),
    // note all events so far, in their order, so many times more
    Again(u32),
}

#[derive(Drop)]
pub struct Run {
    pub name: String,
    pub counts: Counts,
    pub room: Room,
    pub steps: Vec<Step>,
}

impl Run {
    pub fn new(heap: Global, name: &str, counts: Counts) -> Result<Run, AllocError> {
        Ok(Run {
            name: String::from_str(heap, name)?,
            counts,
            room: Room {
                log: 16,
                stamps: 64,
                pairs: 16,
            },
            steps: Vec::new(heap),
        })
    }
}

// By which numbers a bank and a notebook refuse counts, or `none`.
#[derive(Clone, Copy)]
pub struct Refusals<'a> {
    pub bank: &'a str,
    pub notebook: &'a str,
}

// What is expected of a run under an order; ? where nothing is.
#[derive(Clone, Copy)]
pub struct Expected<'a> {
    // a time for each accepted event
    pub times: &'a str,
    // the pairs that are held, and how many there are where the table is too short for all
    pub pairs: &'a str,
    // the positions that are before one another
    pub before: &'a str,
}

#[derive(Clone, Copy)]
pub enum Line<'a> {
    // an empty line, or a comment
    Nothing,
    Check(Counts, Refusals<'a>),
    // the numbers by which questions past the end are refused, in every run from here on
    Past(&'a str),
    // a run's name and its counts
    Run(&'a str, Counts),
    Room(Room),
    Step(Step),
    // an order's number, and what is expected
    Order(u16, Expected<'a>),
}

// `t0 write v0`, and ` refused 11` where it is refused
fn parse_note(line: &str) -> anyhow::Result<Step> {
    let mut words = line.split_whitespace();
    let event = next_event(&mut words)?;
    let refused = match words.next() {
        None => None,
        Some("refused") => Some(next_word(&mut words)?.parse::<u16>()?),
        Some(_) => bail!("an event has a word too many"),
    };
    Ok(Step::Note(event, refused))
}

// `threads K locks L variables X bank B notebook N`
fn parse_check(rest: &str) -> anyhow::Result<Line> {
    let mut words = rest.split_whitespace();
    let counts = next_counts(&mut words)?;
    Ok(Line::Check(
        counts,
        Refusals {
            bank: next_labelled(&mut words, "bank")?,
            notebook: next_labelled(&mut words, "notebook")?,
        },
    ))
}

// `NAME threads K locks L variables X`
fn parse_run(rest: &str) -> anyhow::Result<Line> {
    let mut words = rest.split_whitespace();
    let name = next_word(&mut words)?;
    Ok(Line::Run(name, next_counts(&mut words)?))
}

// `log N stamps N pairs N`
fn parse_room(rest: &str) -> anyhow::Result<Room> {
    let mut words = rest.split_whitespace();
    Ok(Room {
        log: next_labelled(&mut words, "log")?.parse::<usize>()?,
        stamps: next_labelled(&mut words, "stamps")?.parse::<usize>()?,
        pairs: next_labelled(&mut words, "pairs")?.parse::<usize>()?,
    })
}

// `R times .. / pairs .. / before ..`
fn parse_order(rest: &str) -> anyhow::Result<Line> {
    let line = order_line(rest)?;
    let (pairs, before) = line
        .pairs
        .split_once(" / before ")
        .context("an order has what is before what")?;
    Ok(Line::Order(
        line.number.parse::<u16>()?,
        Expected {
            times: line.times,
            pairs,
            before,
        },
    ))
}

pub fn parse(line: &str) -> anyhow::Result<Line> {
    if line.is_empty() || line.starts_with('#') {
        return Ok(Line::Nothing);
    }
    if let Some(rest) = line.strip_prefix("check ") {
        return parse_check(rest);
    }
    if let Some(rest) = line.strip_prefix("past the end: ") {
        return Ok(Line::Past(rest));
    }
    if let Some(rest) = line.strip_prefix("run ") {
        return parse_run(rest);
    }
    if let Some(rest) = line.strip_prefix("room ") {
        return Ok(Line::Room(parse_room(rest)?));
    }
    if let Some(rest) = line.strip_prefix("again ") {
        return Ok(Line::Step(Step::Again(rest.parse::<u32>()?)));
    }
    if let Some(rest) = line.strip_prefix("order ") {
        return parse_order(rest);
    }
    Ok(Line::Step(parse_note(line)?))
}
