ghost use Rattle.std.specs.Prelude.{◌≡◌};
ghost use Rattle.policies.specs.Pair.{pair_rule};

use interface::answers::{PolicyAnswer, QuestionKind};
use interface::parties::Policy;
use interface::value::Value;
use std::marker::Model;

// Two policies of any make as one. The second is asked only if the first passed.
#[derive(Drop)]
pub struct Pair<A, B> {
    first: A,
    second: B,
}

impl<A, B> Model for Pair<A, B> {
    ghost Value = { A × B };

    ghost view = { λ p. (p.first, p.second) };
}

impl<A, B> Pair<A, B> {
    pub fn new(first: A, second: B) -> Pair<A, B>
        ensures { result ≡ (first, second) }
    {
        Pair { first, second }
    }

    // Gives both policies back.
    pub fn into_parts(self) -> (A, B)
        ensures { result ≡ self }
    {
        let Pair { first, second } = self;
        (first, second)
    }
}

impl<A: Policy, B: Policy> Policy for Pair<A, B> {
    ghost State = { A.Policy.State × B.Policy.State };

    ghost state = { λ p. (A.Policy.state p.0, B.Policy.state p.1) };

    ghost rule = { λ p. pair_rule (A.Policy.rule p.0) (B.Policy.rule p.1) };

    fn ask(&mut self, kind: QuestionKind, method: u8, values: &[Value]) -> PolicyAnswer {
        match self.first.ask(kind, method, values) {
            PolicyAnswer::Pass => self.second.ask(kind, method, values),
            PolicyAnswer::Stop(code) => PolicyAnswer::Stop(code),
        }
    }
}
