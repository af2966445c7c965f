ghost use Rattle.std.specs.Prelude.{◌≡◌, Some};
ghost use Rattle.std.specs.Option.{ok_or};
ghost use Rattle.sheet.specs.Ops.{op_number, op_numbered, op_row, simple_row, call_row, question_row};
ghost use Rattle.sheet.specs.Numbers.{unknown};
ghost use Rattle.sheet.specs.Names.{op_name};

use crate::unknown::UnknownNumber;
use std::fmt;

// What an instruction does.
#[derive(Clone, Copy, Debug, PartialEq, Eq)]
pub enum Op {
    LoadConstant = 1,
    LoadArgument = 2,
    LoadLocal = 3,
    StoreLocal = 4,
    Pop = 5,
    Add = 6,
    Subtract = 7,
    CompareEqual = 8,
    CompareLess = 9,
    Branch = 10,
    BranchTrue = 11,
    CallOwn = 12,
    CallLibrary = 13,
    Return = 14,
    Throw = 15,
    Before = 16,
    After = 17,
    Except = 18,
}

// What the operand of an instruction means.
#[derive(Clone, Copy, Debug, PartialEq, Eq)]
pub enum OperandUse {
    Unused,
    Number,
    Argument,
    Local,
    Location,
    OwnMethod,
    LibraryMethod,
    WatchedMethod,
}

// How many values an instruction takes from the stack or leaves there. Where the operand names a method, the
// arguments and the value of that method count.
#[derive(Clone, Copy, Debug, PartialEq, Eq)]
pub enum Amount {
    Fixed(u8),
    Arguments,
    Gives,
    ArgumentsAndGives,
    ArgumentsAndOne,
    // What the method gives that the instruction stands in, and nothing beside it.
    OwnGives,
}

// One row of the table of ops.
#[derive(Clone, Copy, Debug, PartialEq, Eq)]
pub struct OpRow {
    pub number: u8,
    pub operand: OperandUse,
    pub takes: Amount,
    pub leaves: Amount,
    // Whether control may go on to the following location.
    pub falls: bool,
}

// A row without a method in it, from which control goes on.
fn simple(number: u8, operand: OperandUse, takes: u8, leaves: u8) -> OpRow
    ensures { result ≡ simple_row number operand takes leaves }
{
    OpRow {
        number,
        operand,
        takes: Amount::Fixed(takes),
        leaves: Amount::Fixed(leaves),
        falls: true,
    }
}

// A call of a method that the operand names.
fn call(number: u8, operand: OperandUse) -> OpRow
    ensures { result ≡ call_row number operand }
{
    OpRow {
        number,
        operand,
        takes: Amount::Arguments,
        leaves: Amount::Gives,
        falls: true,
    }
}

// A question to the policy about a library method.
fn question(number: u8, takes: Amount) -> OpRow
    ensures { result ≡ question_row number takes }
{
    OpRow {
        number,
        operand: OperandUse::WatchedMethod,
        takes,
        leaves: Amount::Fixed(0),
        falls: true,
    }
}

impl From<Op> for u8 {
    ghost from_gives = { λ op n. n ≡ op_number op };

    fn from(op: Op) -> u8 {
        op as u8
    }
}

// The op of a number, if there is one.
impl TryFrom<u8> for Op {
    type Error = UnknownNumber;

    ghost try_from_gives = { λ n r. r ≡ ok_or (op_numbered n) (unknown n) };

    fn try_from(number: u8) -> Result<Op, UnknownNumber> {
        match number {
            1 => Ok(Op::LoadConstant),
            2 => Ok(Op::LoadArgument),
            3 => Ok(Op::LoadLocal),
            4 => Ok(Op::StoreLocal),
            5 => Ok(Op::Pop),
            6 => Ok(Op::Add),
            7 => Ok(Op::Subtract),
            8 => Ok(Op::CompareEqual),
            9 => Ok(Op::CompareLess),
            10 => Ok(Op::Branch),
            11 => Ok(Op::BranchTrue),
            12 => Ok(Op::CallOwn),
            13 => Ok(Op::CallLibrary),
            14 => Ok(Op::Return),
            15 => Ok(Op::Throw),
            16 => Ok(Op::Before),
            17 => Ok(Op::After),
            18 => Ok(Op::Except),
            _ => Err(UnknownNumber { number }),
        }
    }
}

impl Op {
    // The row of the op in the table.
    pub fn row(self) -> OpRow
        ensures { result ≡ op_row self }
    {
        match self {
            Op::LoadConstant => simple(1, OperandUse::Number, 0, 1),
            Op::LoadArgument => simple(2, OperandUse::Argument, 0, 1),
            Op::LoadLocal => simple(3, OperandUse::Local, 0, 1),
            Op::StoreLocal => simple(4, OperandUse::Local, 1, 0),
            Op::Pop => simple(5, OperandUse::Unused, 1, 0),
            Op::Add => simple(6, OperandUse::Unused, 2, 1),
            Op::Subtract => simple(7, OperandUse::Unused, 2, 1),
            Op::CompareEqual => simple(8, OperandUse::Unused, 2, 1),
            Op::CompareLess => simple(9, OperandUse::Unused, 2, 1),
            Op::Branch => OpRow {
                falls: false,
                ..simple(10, OperandUse::Location, 0, 0)
            },
            Op::BranchTrue => simple(11, OperandUse::Location, 1, 0),
            Op::CallOwn => call(12, OperandUse::OwnMethod),
            Op::CallLibrary => call(13, OperandUse::LibraryMethod),
            Op::Return => OpRow {
                takes: Amount::OwnGives,
                falls: false,
                ..simple(14, OperandUse::Unused, 0, 0)
            },
            Op::Throw => OpRow {
                falls: false,
                ..simple(15, OperandUse::Unused, 1, 0)
            },
            Op::Before => question(16, Amount::Arguments),
            Op::After => question(17, Amount::ArgumentsAndGives),
            Op::Except => question(18, Amount::ArgumentsAndOne),
        }
    }
}

// Its name, as people write it.
impl fmt::Display for Op {
    ghost output = { λ op. Some (op_name op) };

    fn fmt<W: fmt::Write>(&self, f: &mut fmt::Formatter<W>) -> fmt::Result {
        f.write_str(match self {
            Op::LoadConstant => "ldc",
            Op::LoadArgument => "ldarg",
            Op::LoadLocal => "ldloc",
            Op::StoreLocal => "stloc",
            Op::Pop => "pop",
            Op::Add => "add",
            Op::Subtract => "sub",
            Op::CompareEqual => "ceq",
            Op::CompareLess => "clt",
            Op::Branch => "br",
            Op::BranchTrue => "brtrue",
            Op::CallOwn => "call",
            Op::CallLibrary => "lib",
            Op::Return => "ret",
            Op::Throw => "throw",
            Op::Before => "before",
            Op::After => "after",
            Op::Except => "except",
        })
    }
}
