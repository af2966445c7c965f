ghost use Rattle.std.specs.Prelude.{◌≡◌};
ghost use Rattle.interface.specs.Entries.{first_seven, entry_of, library_entry, question_entry};

use crate::answers::{LibraryAnswer, PolicyAnswer, QuestionKind};
use crate::value::Value;

// One line of the log: a call of a library or a question to a policy, with its answer.
// The log's format has numbers for the kind, the flag and the answer, so these are no enums.
#[derive(Clone, Copy, Debug, PartialEq, Eq)]
pub struct Entry {
    // 1 for a call of a library, else the number of the question's kind.
    pub kind: u8,
    pub method: u8,
    // How many values there were, even if there were more than seven.
    pub count: usize,
    // The first seven values; unused places hold the number 0.
    pub values: [Value; 7],
    // 0 for a return or a pass, 1 for a raise or a stop.
    pub flag: u8,
    // The number of the answer.
    pub number: i32,
}

// Unused places hold the number 0.
fn first_seven(values: &[Value]) -> [Value; 7]
    ensures { result ≡ first_seven values.now }
{
    let mut first = [Value::Number(0); 7];
    let count = values.len().min(7);
    first[..count].copy_from_slice(&values[..count]);
    first
}

impl Entry {
    // The entry of a call; `gives` says whether the method gives a value.
    pub fn library(method: u8, values: &[Value], answer: LibraryAnswer, gives: bool) -> Entry
        ensures { result ≡ library_entry method values.now answer gives }
    {
        Entry::new(1, method, values, answer.flag(), answer.number(gives))
    }

    // The entry of a question.
    pub fn question(kind: QuestionKind, method: u8, values: &[Value], answer: PolicyAnswer) -> Entry
        ensures { result ≡ question_entry kind method values.now answer }
    {
        Entry::new(kind.into(), method, values, answer.flag(), answer.number())
    }

    fn new(kind: u8, method: u8, values: &[Value], flag: u8, number: i32) -> Entry
        ensures { result ≡ entry_of kind method values.now flag number }
    {
        Entry {
            kind,
            method,
            count: values.len(),
            values: first_seven(values),
            flag,
            number,
        }
    }
}
