// Why a line of a script is refused.
use std::error::Error;
use std::fmt;
use std::num::ParseIntError;

#[derive(PartialEq, Eq, Debug, Drop)]
pub enum ScriptError {
    // a word is missing
    EndsEarly,
    // a word is not the label that has to stand there
    OtherLabel,
    // a word is not a number behind its letter, as t0
    NotNumbered,
    NoSuchOperation,
    NoSuchOrder,
    // an order has no ` times `
    NoTimes,
    // an order has no `/ pairs `
    NoPairs,
    Number(ParseIntError),
}

impl fmt::Display for ScriptError {
    ghost use Rattle.run_script.specs.Faults.{fault_text};

    ghost output = { fault_text };

    fn fmt<W: fmt::Write>(&self, f: &mut fmt::Formatter<W>) -> fmt::Result {
        match self {
            ScriptError::EndsEarly => write!(f, "a line ends early"),
            ScriptError::OtherLabel => write!(f, "a number has another label"),
            ScriptError::NotNumbered => write!(f, "a thread, lock or variable is expected"),
            ScriptError::NoSuchOperation => write!(f, "no such operation"),
            ScriptError::NoSuchOrder => write!(f, "no such order"),
            ScriptError::NoTimes => write!(f, "an order has times"),
            ScriptError::NoPairs => write!(f, "an order has pairs"),
            ScriptError::Number(cause) => write!(f, "{cause}"),
        }
    }
}

impl Error for ScriptError {}

impl From<ParseIntError> for ScriptError {
    ghost use Rattle.std.specs.Prelude.{◌≡◌};
    ghost use Rattle.run_script.specs.declared.fault.ScriptError.TheVariants.{Number};

    ghost from_gives = { λ cause e. e ≡ Number cause };

    fn from(cause: ParseIntError) -> ScriptError {
        ScriptError::Number(cause) // its text is the cause's
    }
}
