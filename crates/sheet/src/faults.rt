ghost use Rattle.std.specs.Prelude.{◌≡◌};
ghost use Rattle.sheet.specs.Refusals.{line_number, sheet_refusal};
ghost use Rattle.sheet.specs.declared.faults.LineFault.TheVariants.{Form, Field as OfField, Order, Count};

use crate::fields::Field;
use refusal::Refusal;

// Why a field is refused.
#[derive(Clone, Copy, Debug, PartialEq, Eq)]
pub enum FieldFault {
    // It is not the text of a number: blanks, then digits without a leading zero, with a minus ahead of them or not.
    NoNumber(Field),
    // It is, and the field may not hold that number.
    OutOfRange(Field),
}

// Why a line is no letter with its fields and a line feed.
#[derive(Clone, Copy, Debug, PartialEq, Eq)]
pub enum FormFault {
    UnknownLetter,
    NoLineFeed,
    WrongLength,
}

// Why a line may not stand where it does.
#[derive(Clone, Copy, Debug, PartialEq, Eq)]
pub enum OrderFault {
    LibraryBehindMethod,
    NoMethodYet,
    InstructionBehindHandler,
}

// What a sheet has only so many of.
#[derive(Clone, Copy, Debug, PartialEq, Eq)]
pub enum Counted {
    LibraryMethods,
    OwnMethods,
    Instructions,
    Handlers,
}

// Why a line is refused.
#[derive(Clone, Copy, Debug, PartialEq, Eq)]
pub enum LineFault {
    Form(FormFault),
    Field(FieldFault),
    Order(OrderFault),
    Count(Counted),
}

// Why a text is not read, or a sheet not written. It has no Display: what people are told of a fault quotes the text that it
// was found in, which the crate `vetting` has.
#[derive(Clone, Copy, Debug, PartialEq, Eq)]
pub enum SheetFault {
    // The first faulty line of the text, counted from 0, and what is wrong with it.
    Line(usize, LineFault),
    // The buffer is shorter than the text of the sheet.
    ShortBuffer,
}

// These are written by hand, since a derive's `From` would not say in a contract which fault comes.
impl From<FormFault> for LineFault {
    ghost from_gives = { λ f r. r ≡ Form f };

    fn from(fault: FormFault) -> LineFault {
        LineFault::Form(fault)
    }
}

impl From<FieldFault> for LineFault {
    ghost from_gives = { λ f r. r ≡ OfField f };

    fn from(fault: FieldFault) -> LineFault {
        LineFault::Field(fault)
    }
}

impl From<OrderFault> for LineFault {
    ghost from_gives = { λ f r. r ≡ Order f };

    fn from(fault: OrderFault) -> LineFault {
        LineFault::Order(fault)
    }
}

impl From<Counted> for LineFault {
    ghost from_gives = { λ c r. r ≡ Count c };

    fn from(counted: Counted) -> LineFault {
        LineFault::Count(counted)
    }
}

impl LineFault {
    // The number of its refusal. A method and no `From`: a number without its place says too little.
    pub fn number(self) -> u8
        ensures { result ≡ line_number self }
    {
        match self {
            LineFault::Form(_) => 1,
            LineFault::Field(_) => 2,
            LineFault::Order(_) => 3,
            LineFault::Count(_) => 4,
        }
    }
}

// The number of the refusal and its places: a line and 0, or none.
impl From<SheetFault> for Refusal {
    ghost from_gives = { λ f r. r ≡ sheet_refusal f };

    fn from(fault: SheetFault) -> Refusal {
        match fault {
            SheetFault::Line(line, fault) => Refusal {
                number: fault.number(),
                first: line,
                second: 0,
            },
            SheetFault::ShortBuffer => Refusal {
                number: 5,
                first: 0,
                second: 0,
            },
        }
    }
}
