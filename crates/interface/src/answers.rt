ghost use Rattle.std.specs.Prelude.{◌≡◌, Some, ok_or};
ghost use Rattle.interface.specs.Answers.{kind_number, kind_numbered, unknown_text};
ghost use Rattle.interface.specs.Answers.{library_flag, library_number, policy_flag, policy_number};

use std::error::Error;
use std::fmt;

// When a question is put: ahead of a call, after its return, or after it raised an exception.
#[derive(Clone, Copy, Debug, PartialEq, Eq)]
pub enum QuestionKind {
    Before = 2,
    After = 3,
    Except = 4,
}

// A number that no kind of question has.
#[derive(Clone, Copy, Debug, PartialEq, Eq)]
pub struct UnknownKind(pub u8);

impl From<QuestionKind> for u8 {
    ghost from_gives = { λ kind n. n ≡ kind_number kind };

    fn from(kind: QuestionKind) -> u8 {
        kind as u8
    }
}

impl TryFrom<u8> for QuestionKind {
    type Error = UnknownKind;

    ghost try_from_gives = { λ n kind. kind ≡ ok_or (kind_numbered n) (record { 0 = n }) };

    fn try_from(number: u8) -> Result<QuestionKind, UnknownKind> {
        match number {
            2 => Ok(QuestionKind::Before),
            3 => Ok(QuestionKind::After),
            4 => Ok(QuestionKind::Except),
            _ => Err(UnknownKind(number)),
        }
    }
}

impl fmt::Display for UnknownKind {
    ghost output = { λ e. Some (unknown_text e) };

    fn fmt<W: fmt::Write>(&self, f: &mut fmt::Formatter<W>) -> fmt::Result {
        write!(f, "no kind of question has number {}", self.0)
    }
}

impl Error for UnknownKind {}

// What a library answers to a call. By a rule of the project, answers are enums whose cases carry
// the code: no Result.
#[derive(Clone, Copy, Debug, PartialEq, Eq)]
pub enum LibraryAnswer {
    Return(i32),
    Raise(i32),
}

impl LibraryAnswer {
    // The log's format: 0 for a return, 1 for a raise.
    pub fn flag(self) -> u8
        ensures { result ≡ library_flag self }
    {
        match self {
            LibraryAnswer::Return(_) => 0,
            LibraryAnswer::Raise(_) => 1,
        }
    }

    // The number to record: what a method returns that gives no value does not count.
    pub fn number(self, gives: bool) -> i32
        ensures { result ≡ library_number gives self }
    {
        match self {
            LibraryAnswer::Return(n) => if gives { n } else { 0 },
            LibraryAnswer::Raise(c) => c,
        }
    }
}

// What a policy answers to a question. By the same rule, this is no Option.
#[derive(Clone, Copy, Debug, PartialEq, Eq)]
pub enum PolicyAnswer {
    Pass,
    Stop(i32),
}

impl PolicyAnswer {
    // The log's format: 0 for a pass, 1 for a stop.
    pub fn flag(self) -> u8
        ensures { result ≡ policy_flag self }
    {
        match self {
            PolicyAnswer::Pass => 0,
            PolicyAnswer::Stop(_) => 1,
        }
    }

    // The number to record: a pass has none of its own.
    pub fn number(self) -> i32
        ensures { result ≡ policy_number self }
    {
        match self {
            PolicyAnswer::Pass => 0,
            PolicyAnswer::Stop(c) => c,
        }
    }
}
