// A refusal as programs pass it on.
#![tactic(auto)]

ghost use Rattle.std.specs.Prelude.{Some};
ghost use Rattle.refusal.specs.Refusals.{refusal_text};

use std::fmt;

// Its number and its two places. The number is the one that programs read and people look up; the faults that it is made
// from are enums.
#[derive(Clone, Copy, Debug, PartialEq, Eq)]
pub struct Refusal {
    pub number: u8,
    pub first: usize,
    pub second: usize,
}

impl fmt::Display for Refusal {
    ghost output = { λ r. Some (refusal_text r) };

    fn fmt<W: fmt::Write>(&self, f: &mut fmt::Formatter<W>) -> fmt::Result {
        let number = self.number;
        let first = self.first;
        let second = self.second;
        write!(f, "{number} {first} {second}")
    }
}
