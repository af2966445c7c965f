ghost use Rattle.std.specs.Prelude.{◌≡◌};
ghost use Rattle.interface.specs.Rules.{LibraryRule, PolicyRule};

use crate::answers::{LibraryAnswer, PolicyAnswer, QuestionKind};
use crate::value::Value;

// What a routine calls. Its meaning is a rule and a state, and a call is the only way to change
// the state.
pub trait Library {
    ghost State: { Type 0 };

    // What the library remembers, whatever way it is stored.
    ghost state: { Self → State };

    // What it answers and remembers next. A value has one rule for life.
    ghost rule: { Self → LibraryRule State };

    fn call(&mut self, method: u8, values: &[Value]) -> LibraryAnswer
        ensures step { (result, state self.new) ≡ rule self.old (state self.old) method values.now }
        ensures keeps { rule self.new ≡ rule self.old };
}

// Who is asked about the calls of watched methods. Its meaning is a rule and a state, as a
// library's. They differ in the question's kind and in the answer, and a routine is given one of
// each, so these are two traits.
pub trait Policy {
    ghost State: { Type 0 };

    // What the policy remembers, whatever way it is stored.
    ghost state: { Self → State };

    // What it answers and remembers next. A question does not change the rule.
    ghost rule: { Self → PolicyRule State };

    fn ask(&mut self, kind: QuestionKind, method: u8, values: &[Value]) -> PolicyAnswer
        ensures step { (result, state self.new)
            ≡ rule self.old (state self.old) kind method values.now }
        ensures keeps { rule self.new ≡ rule self.old };
}
