ghost use Rattle.std.specs.Prelude.{◌≡◌, slice_index_or};
ghost use Rattle.check_rules.specs.Effects.{named, amount_of, index_of, target_of, effect_of};
ghost use Rattle.check_rules.specs.Places.{place_of, plain};

use crate::around::Around;
use sheet::instruction::{Instruction, Operand};
use sheet::location::PlainLocation;
use sheet::op::{Amount, OperandUse};
use sheet::records::{Shape, Signature};

// What an instruction does to the depth of the stack, and where control may go from it.
#[derive(Clone, Copy, Debug, PartialEq, Eq)]
pub struct Effect {
    pub takes: u16,
    pub leaves: u16,
    // Whether control may go on to the following location.
    pub falls: bool,
    // Whether nothing but what it takes may be on the stack. Beside `takes`, not one enum of both:
    // the law of the check speaks of the number and of this by themselves.
    pub exact: bool,
    pub jump: Option<u16>,
}

// The record of this number, or `absent` where there is none: no `Option`, since the definitions
// give a record for every number.
pub fn record_at<T: Copy>(records: &[T], index: u8, absent: T) -> T
    ensures { result ≡ slice_index_or records.now index absent }
{
    records.get(usize::from(index)).copied().unwrap_or(absent)
}

// The method that an operand of this use names, as its callers see it. No `From` of a shape: that
// nobody watches an own method is said of it here alone.
fn named_method(around: Around<'_>, operand_use: OperandUse, index: u8) -> Signature
    ensures { result ≡ named (place_of around.entry) operand_use index }
{
    match operand_use {
        OperandUse::OwnMethod => {
            let shape = record_at(around.shapes, index, Shape::default());
            Signature {
                arguments: shape.arguments,
                gives: shape.gives,
                watched: false,
            }
        }
        OperandUse::LibraryMethod | OperandUse::WatchedMethod => record_at(
            around.library,
            index,
            Signature::default(),
        ),
        _ => Signature::default(),
    }
}

// How many values an amount is, for a named method, in a method that gives a value or not.
fn amount(amount: Amount, method: Signature, own_gives: bool) -> u16
    ensures { result ≡ amount_of amount method own_gives }
{
    match amount {
        Amount::Fixed(n) => u16::from(n),
        Amount::Arguments => u16::from(method.arguments),
        Amount::Gives => u16::from(method.gives),
        Amount::ArgumentsAndGives => u16::from(method.arguments) + u16::from(method.gives),
        Amount::ArgumentsAndOne => u16::from(method.arguments) + 1,
        Amount::OwnGives => u16::from(own_gives),
    }
}

// The effect of an instruction.
pub fn effect_of(instruction: Instruction<PlainLocation>, around: Around<'_>) -> Effect
    ensures { result ≡ effect_of plain (place_of around.entry) instruction }
{
    let row = instruction.op().row();
    let operand = instruction.operand();
    let method = named_method(around, row.operand, index(operand));
    Effect {
        takes: amount(row.takes, method, around.own.gives),
        leaves: amount(row.leaves, method, around.own.gives),
        falls: row.falls,
        exact: row.takes == Amount::OwnGives,
        jump: target(operand),
    }
}

// The index that an operand is, or 0: no `Option`, since the definition is total and gives 0 where
// no method is named.
fn index(operand: Operand<PlainLocation>) -> u8
    ensures { result ≡ index_of operand }
{
    match operand {
        Operand::Index(index) => index,
        _ => 0,
    }
}

// The location that an operand is, if it is one.
fn target(operand: Operand<PlainLocation>) -> Option<u16>
    ensures { result ≡ target_of plain operand }
{
    match operand {
        Operand::Location(location) => Some(location.number()),
        _ => None,
    }
}
