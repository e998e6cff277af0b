// A pair, by the positions of its two events.
ghost use Rattle.std.specs.Prelude.{Some};
ghost use Rattle.orders.specs.Texts.{pair_text};

use std::fmt;

#[derive(Clone, Copy, PartialEq, Eq, Debug)]
pub struct PositionPair {
    pub earlier: u16,
    pub later: u16,
}

// As 0-1.
impl fmt::Display for PositionPair {
    ghost output = { λ pair. Some (pair_text pair) };

    fn fmt<W: fmt::Write>(&self, f: &mut fmt::Formatter<W>) -> fmt::Result {
        write!(f, "{}-{}", self.earlier, self.later)
    }
}
