// The orders that a script can name.
use crate::fault::ScriptError;
use std::fmt;

// By their rules' numbers.
#[derive(Clone, Copy, PartialEq, Eq, Debug)]
pub enum Order {
    HappensBefore = 1,
    Schedulable = 2,
}

// By its number.
impl TryFrom<u16> for Order {
    type Error = ScriptError;

    ghost use Rattle.run_script.specs.Orders.{IsOrder};

    ghost try_from_gives = { IsOrder };

    fn try_from(number: u16) -> Result<Order, ScriptError> {
        match number {
            1 => Ok(Order::HappensBefore),
            2 => Ok(Order::Schedulable),
            _ => Err(ScriptError::NoSuchOrder),
        }
    }
}

impl fmt::Display for Order {
    ghost use Rattle.std.specs.Prelude.{Some, decimal};
    ghost use Rattle.run_script.specs.Orders.{number_of};

    ghost output = { λ order. Some (decimal (number_of order)) };

    fn fmt<W: fmt::Write>(&self, f: &mut fmt::Formatter<W>) -> fmt::Result {
        write!(f, "{}", *self as u16)
    }
}
