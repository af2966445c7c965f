ghost use Rattle.std.specs.Prelude.{◌≡◌, ℕ};
ghost use Rattle.policies.specs.Chart.{no_arrows, slot, arrow_at, chart_rule, drawn, IsSound};

use crate::fault::ArrowFault;
use interface::answers::{PolicyAnswer, QuestionKind};
use interface::parties::Policy;
use interface::value::Value;
use std::marker::Model;

// Boxes 0 to 15, of which one is current, and arrows between them. A question moves along the
// arrow that leaves the current box on its kind and method.
#[derive(Drop)]
pub struct Chart {
    // For each box, kind and method the box that the arrow leads to. The rule and its law speak of
    // one list, so this is one array, and `place` alone says where in it an arrow is kept.
    arrows: [Option<u8>; 1536],
    current: u8,
}

impl Model for Chart {
    ghost use Rattle.policies.specs.Chart.{Moves, IsSound};

    ghost Value = { Moves };

    ghost view = { λ c. record { arrows = c.arrows; current = c.current } };

    ghost invariant = { λ c. IsSound (record { arrows = c.arrows; current = c.current }) };
}

// Where the arrow from a box on a kind and a method is kept.
fn place(from: u8, kind: QuestionKind, method: u8) -> usize
    ensures { result ≡ slot from kind method }
{
    usize::from(from) * 96 + (kind as usize - 2) * 32 + usize::from(method)
}

impl Chart {
    pub fn new() -> Chart
        ensures arrows { result.arrows ≡ no_arrows }
        ensures current { result.current ≡ 0 }
    {
        Chart {
            arrows: [None; 1536],
            current: 0,
        }
    }

    // Draws an arrow; where it refuses, nothing changes. A chart is drawn from numbers, so the kind
    // is one too, and a wrong one is refused with 17, as every wrong arrow is.
    pub fn draw(&mut self, from: u8, kind: u8, method: u8, to: u8) -> Result<(), ArrowFault>
        ensures arrows { (result, self.new.arrows) ≡ drawn self.old.arrows from kind method to }
        ensures stays { self.new.current ≡ self.old.current }
    {
        if from > 15 || to > 15 {
            return Err(ArrowFault::NoSuchBox);
        }
        let kind = QuestionKind::try_from(kind)?;
        if method > 31 {
            return Err(ArrowFault::NoSuchMethod);
        }
        let arrow = &mut self.arrows[place(from, kind, method)];
        if arrow.is_some() {
            return Err(ArrowFault::AlreadyThere);
        }
        *arrow = Some(to);
        Ok(())
    }

    // Looks at the current box without a question.
    pub fn current(&self) -> u8
        ensures current { result ≡ self.now.current }
        ensures sound { IsSound self.now }
    {
        self.current
    }

    // The box that the arrow from the current one leads to, if there is an arrow.
    fn next(&self, kind: QuestionKind, method: u8) -> Option<u8>
        ensures { result ≡ arrow_at self.now.arrows self.now.current kind method }
    {
        if method > 31 {
            return None;
        }
        self.arrows[place(self.current, kind, method)]
    }
}

impl Policy for Chart {
    ghost State = { ℕ };

    ghost state = { λ c. c.current };

    ghost rule = { λ c. chart_rule c.arrows };

    fn ask(&mut self, kind: QuestionKind, method: u8, values: &[Value]) -> PolicyAnswer {
        if let Some(to) = self.next(kind, method) {
            self.current = to;
            return PolicyAnswer::Pass;
        }
        match kind {
            QuestionKind::Before => PolicyAnswer::Stop(i32::from(self.current)),
            QuestionKind::After | QuestionKind::Except => PolicyAnswer::Pass,
        }
    }
}
