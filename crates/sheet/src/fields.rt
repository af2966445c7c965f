ghost use Rattle.std.specs.Prelude.{◌≡◌, ◌+◌, Some};
ghost use Rattle.std.specs.Option.{ok_or};
ghost use Rattle.sheet.specs.Fields.{width_of, lowest, highest, letter_byte, letter_of, widths, fields_of};
ghost use Rattle.sheet.specs.Names.{field_name};
ghost use Rattle.sheet.specs.declared.faults.FormFault.TheVariants.{UnknownLetter};

use crate::faults::FormFault;
use std::fmt;

// A field of a line, by what it holds.
#[derive(Clone, Copy, Debug, PartialEq, Eq)]
pub enum Field {
    Arguments,
    Gives,
    Watched,
    Locals,
    StackLimit,
    Op,
    Operand,
    TryBegin,
    TryEnd,
    Kind,
    CatchBegin,
    CatchEnd,
}

impl Field {
    // How many columns it has.
    pub fn width(self) -> usize
        ensures { result ≡ width_of self }
    {
        match self {
            Field::Operand => 12,
            _ => 6,
        }
    }

    // The least number that it may hold.
    pub fn least(self) -> i32
        ensures { result ≡ lowest self }
    {
        match self {
            Field::Operand => i32::MIN,
            Field::Op | Field::Kind => 1,
            _ => 0,
        }
    }

    // The greatest number that it may hold.
    pub fn greatest(self) -> i32
        ensures { result ≡ highest self }
    {
        match self {
            Field::Arguments => 6,
            Field::Gives | Field::Watched => 1,
            Field::Locals => 250,
            Field::StackLimit => 64,
            Field::Op => 18,
            Field::Operand => i32::MAX,
            Field::Kind => 2,
            Field::TryBegin | Field::TryEnd | Field::CatchBegin | Field::CatchEnd => 2048,
        }
    }
}

// Its name, as people write it.
impl fmt::Display for Field {
    ghost output = { λ x. Some (field_name x) };

    fn fmt<W: fmt::Write>(&self, f: &mut fmt::Formatter<W>) -> fmt::Result {
        f.write_str(match self {
            Field::Arguments => "arguments",
            Field::Gives => "gives",
            Field::Watched => "watched",
            Field::Locals => "locals",
            Field::StackLimit => "stack limit",
            Field::Op => "op",
            Field::Operand => "operand",
            Field::TryBegin => "try begin",
            Field::TryEnd => "try end",
            Field::Kind => "kind",
            Field::CatchBegin => "catch begin",
            Field::CatchEnd => "catch end",
        })
    }
}

// The letter that a line begins with, which says what the line declares.
#[derive(Clone, Copy, Debug, PartialEq, Eq)]
pub enum Letter {
    L,
    M,
    I,
    X,
}

impl From<Letter> for u8 {
    ghost from_gives = { λ l b. b ≡ letter_byte l };

    fn from(letter: Letter) -> u8 {
        match letter {
            Letter::L => b'L',
            Letter::M => b'M',
            Letter::I => b'I',
            Letter::X => b'X',
        }
    }
}

// The letter that a byte is, if it is one.
impl TryFrom<u8> for Letter {
    type Error = FormFault;

    ghost try_from_gives = { λ b r. r ≡ ok_or (letter_of b) UnknownLetter };

    fn try_from(byte: u8) -> Result<Letter, FormFault> {
        match byte {
            b'L' => Ok(Letter::L),
            b'M' => Ok(Letter::M),
            b'I' => Ok(Letter::I),
            b'X' => Ok(Letter::X),
            _ => Err(FormFault::UnknownLetter),
        }
    }
}

impl Letter {
    // How many columns the fields of such a line have together.
    pub fn columns(self) -> usize
        ensures { result ≡ widths (fields_of self) }
    {
        match self {
            Letter::L | Letter::I => 18,
            Letter::M => 24,
            Letter::X => 30,
        }
    }

    // How many bytes such a line has, with its letter and its line feed.
    pub fn line_length(self) -> usize
        ensures { result ≡ 2 + widths (fields_of self) }
    {
        2 + self.columns()
    }
}
