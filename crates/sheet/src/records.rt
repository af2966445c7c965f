ghost use Rattle.std.specs.Prelude.{◌≡◌, ◌+◌};
ghost use Rattle.std.specs.Option.{ok_or};
ghost use Rattle.sheet.specs.Numbers.{kind_number, kind_numbered, unknown};

use crate::location::PlainLocation;
use crate::op::Op;
use crate::unknown::UnknownNumber;

// A library method: what it takes, whether it gives a value, and whether calls of it are watched.
#[derive(Clone, Copy, Debug, Default, PartialEq, Eq)]
pub struct Signature {
    pub arguments: u8,
    pub gives: bool,
    pub watched: bool,
}

// An own method without its instructions and handlers.
#[derive(Clone, Copy, Debug, Default, PartialEq, Eq)]
pub struct Shape {
    pub arguments: u8,
    pub gives: bool,
    pub locals: u8,
    pub stack_limit: u8,
}

impl Shape {
    // How many cells a call of such a method has: its arguments, its locals and its stack.
    pub fn cells(self) -> u16
        ensures { result ≡ self.arguments + self.locals + self.stack_limit }
    {
        u16::from(self.arguments) + u16::from(self.locals) + u16::from(self.stack_limit)
    }
}

// An instruction as the text has it: any operand goes, and the check says what it means.
#[derive(Clone, Copy, Debug, PartialEq, Eq)]
pub struct ReadInstruction {
    pub op: Op,
    pub operand: i32,
}

// Which exceptions a handler takes.
#[derive(Clone, Copy, Debug, PartialEq, Eq)]
pub enum Kind {
    Every = 1,
    SecurityOnly = 2,
}

impl From<Kind> for u8 {
    ghost from_gives = { λ k n. n ≡ kind_number k };

    fn from(kind: Kind) -> u8 {
        kind as u8
    }
}

// The kind of a number, if there is one.
impl TryFrom<u8> for Kind {
    type Error = UnknownNumber;

    ghost try_from_gives = { λ n r. r ≡ ok_or (kind_numbered n) (unknown n) };

    fn try_from(number: u8) -> Result<Kind, UnknownNumber> {
        match number {
            1 => Ok(Kind::Every),
            2 => Ok(Kind::SecurityOnly),
            _ => Err(UnknownNumber { number }),
        }
    }
}

// A handler, with locations of one sort `P`. A range has its first location and the one behind its last.
#[derive(Clone, Copy, Debug, PartialEq, Eq)]
pub struct Handler<P> {
    pub try_begin: P,
    pub try_end: P,
    pub kind: Kind,
    pub catch_begin: P,
    pub catch_end: P,
}

// What one line of a text says.
#[derive(Clone, Copy, Debug, PartialEq, Eq)]
pub enum Line {
    Library(Signature),
    Method(Shape),
    Instruction(ReadInstruction),
    Handler(Handler<PlainLocation>),
}
