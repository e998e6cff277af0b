// The words of a script's line.
ghost use Rattle.std.specs.Prelude.{◌≡◌};
ghost use Rattle.run_script.specs.Words.{ReadsWord, ReadsLabelled, IsNumberBehind, ReadsNumberBehind, ReadsLabelledNumber, ReadsOperationNamed, ReadsOperation, ReadsEvent, ReadsCounts, SplitsOrder};

use crate::fault::ScriptError;
use events::event::{Event, Operation};
use orders::counts::Counts;
use std::str::SplitWhitespace;

// What a script states of a run under an order.
#[derive(Clone, Copy)]
pub struct OrderLine<'a> {
    // the order's number
    pub number: &'a str,
    pub times: &'a str,
    pub pairs: &'a str,
}

// The next word, which has to be there.
pub fn next_word<'a>(words: &mut SplitWhitespace<'a>) -> Result<&'a str, ScriptError>
    ensures { ReadsWord words.old result words.new }
{
    words.next().ok_or(ScriptError::EndsEarly)
}

// The word behind a label, as `threads 2`.
pub fn next_labelled<'a>(
    words: &mut SplitWhitespace<'a>,
    label: &str,
) -> Result<&'a str, ScriptError>
    ensures { ReadsLabelled label.now words.old result words.new }
{
    if next_word(words)? != label {
        return Err(ScriptError::OtherLabel);
    }
    next_word(words)
}

fn next_number(words: &mut SplitWhitespace<'_>, label: &str) -> Result<u16, ScriptError>
    ensures { ReadsLabelledNumber label.now words.old result words.new }
{
    Ok(next_labelled(words, label)?.parse::<u16>()?)
}

// `threads K locks L variables X`
pub fn next_counts(words: &mut SplitWhitespace<'_>) -> Result<Counts, ScriptError>
    ensures { ReadsCounts words.old result words.new }
{
    Ok(Counts {
        threads: next_number(words, "threads")?,
        locks: next_number(words, "locks")?,
        variables: next_number(words, "variables")?,
    })
}

// A number behind a letter, as `t0`.
fn number_behind(letter: &str, word: &str) -> Result<u16, ScriptError>
    ensures { IsNumberBehind letter.now word.now result }
{
    let digits = word.strip_prefix(letter).ok_or(ScriptError::NotNumbered)?;
    Ok(digits.parse::<u16>()?)
}

fn next_numbered(words: &mut SplitWhitespace<'_>, letter: &str) -> Result<u16, ScriptError>
    ensures { ReadsNumberBehind letter.now words.old result words.new }
{
    number_behind(letter, next_word(words)?)
}

fn named_operation(words: &mut SplitWhitespace<'_>, name: &str) -> Result<Operation, ScriptError>
    ensures { ReadsOperationNamed name.now words.old result words.new }
{
    match name {
        "read" => Ok(Operation::Read(next_numbered(words, "v")?)),
        "write" => Ok(Operation::Write(next_numbered(words, "v")?)),
        "acquire" => Ok(Operation::Acquire(next_numbered(words, "l")?)),
        "release" => Ok(Operation::Release(next_numbered(words, "l")?)),
        _ => Err(ScriptError::NoSuchOperation),
    }
}

fn next_operation(words: &mut SplitWhitespace<'_>) -> Result<Operation, ScriptError>
    ensures { ReadsOperation words.old result words.new }
{
    let name = next_word(words)?;
    named_operation(words, name)
}

// `t0 write v0`
pub fn next_event(words: &mut SplitWhitespace<'_>) -> Result<Event, ScriptError>
    ensures { ReadsEvent words.old result words.new }
{
    Ok(Event {
        thread: next_numbered(words, "t")?,
        operation: next_operation(words)?,
    })
}

// `R times .. / pairs ..`
pub fn order_line(line: &str) -> Result<OrderLine<'_>, ScriptError>
    ensures { SplitsOrder line.now result }
{
    let (number, rest) = line.split_once(" times ").ok_or(ScriptError::NoTimes)?;
    let (times, pairs) = rest.split_once("/ pairs ").ok_or(ScriptError::NoPairs)?;
    Ok(OrderLine {
        number,
        times,
        pairs,
    })
}
