ghost use Rattle.std.specs.Prelude.{◌≡◌, ℕ, List, length, slice_index};
ghost use Rattle.policies.specs.Allowance.{counted, allowance_rule};

use interface::answers::{PolicyAnswer, QuestionKind};
use interface::parties::Policy;
use interface::value::Value;
use std::marker::Model;

// How often each of the methods 0 to 31 may still be called.
#[derive(Drop)]
pub struct Allowance {
    left: [u32; 32],
}

impl Model for Allowance {
    ghost Value = { List ℕ };

    ghost view = { λ a. a.left };
}

impl Allowance {
    pub fn new(left: [u32; 32]) -> Allowance
        ensures { result ≡ left }
    {
        Allowance { left }
    }

    // Looks at what is left for a method without a question.
    pub fn left(&self, method: u8) -> u32
        ensures left { result ≡ slice_index self.now method }
        ensures whole { length self.now ≡ 32 }
    {
        self.left.get(usize::from(method)).copied().unwrap_or(0)
    }

    // Counts a call of a method down, or stops it.
    fn count_down(&mut self, method: u8) -> PolicyAnswer
        ensures { (result, self.new) ≡ counted self.old method }
    {
        if self.left(method) == 0 {
            return PolicyAnswer::Stop(1);
        }
        self.left[usize::from(method)] -= 1;
        PolicyAnswer::Pass
    }
}

impl Policy for Allowance {
    ghost State = { List ℕ };

    ghost state = { λ left. left };

    ghost rule = { λ _. allowance_rule };

    fn ask(&mut self, kind: QuestionKind, method: u8, values: &[Value]) -> PolicyAnswer {
        match kind {
            QuestionKind::Before => self.count_down(method),
            QuestionKind::After | QuestionKind::Except => PolicyAnswer::Pass,
        }
    }
}
