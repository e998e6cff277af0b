// How much was run, and how much of it is as a script expects.
use std::fmt;

// How a result stands to what is expected of it.
#[derive(Clone, Copy, PartialEq, Eq, Debug)]
pub enum Verdict {
    NothingExpected,
    AsExpected,
    Differs,
}

// The words behind the result.
impl fmt::Display for Verdict {
    ghost use Rattle.std.specs.Prelude.{Some};
    ghost use Rattle.run_script.specs.Tallies.{verdict_text};

    ghost output = { λ verdict. Some (verdict_text verdict) };

    fn fmt<W: fmt::Write>(&self, f: &mut fmt::Formatter<W>) -> fmt::Result {
        match self {
            Verdict::NothingExpected => Ok(()),
            Verdict::AsExpected => write!(f, " as expected"),
            Verdict::Differs => write!(f, " DIFFERS"),
        }
    }
}

// Each count stays at the largest number once it is there.
#[derive(Clone, Copy, Default, PartialEq, Eq, Debug)]
pub struct Tally {
    pub orders: u32,
    pub events: u32,
    pub compared: u32,
    pub differ: u32,
}

impl Tally {
    ghost use Rattle.std.specs.Prelude.{◌≡◌};
    ghost use Rattle.run_script.specs.Tallies.{verdict_of, verdict_if, counted, one_order_more};

    // Compares a result with what is expected of it, `?` where nothing is.
    pub fn compare(&mut self, found: &str, expected: &str) -> Verdict
        ensures verdict { result ≡ verdict_of found.now expected.now }
        ensures after { self.new ≡ counted (verdict_of found.now expected.now) self.old }
    {
        if expected == "?" {
            return Verdict::NothingExpected;
        }
        self.check(found == expected)
    }

    // Counts a comparison that was made elsewhere, by whether it holds.
    pub fn check(&mut self, holds: bool) -> Verdict
        ensures verdict { result ≡ verdict_if holds }
        ensures after { self.new ≡ counted (verdict_if holds) self.old }
    {
        self.compared = self.compared.saturating_add(1);
        if holds {
            return Verdict::AsExpected;
        }
        self.differ = self.differ.saturating_add(1);
        Verdict::Differs
    }

    // Counts a run of so many events under an order.
    pub fn add_order(&mut self, events: u32)
        ensures { self.new ≡ one_order_more events self.old }
    {
        self.orders = self.orders.saturating_add(1);
        self.events = self.events.saturating_add(events);
    }
}

impl fmt::Display for Tally {
    ghost use Rattle.std.specs.Prelude.{Some};
    ghost use Rattle.run_script.specs.Tallies.{tally_text};

    ghost output = { λ tally. Some (tally_text tally) };

    fn fmt<W: fmt::Write>(&self, f: &mut fmt::Formatter<W>) -> fmt::Result {
        write!(f, "{} runs of {} events, ", self.orders, self.events)?;
        write!(
            f,
            "{} results compared, {} differ",
            self.compared, self.differ
        )
    }
}
