// What is told of a line that is refused.
use crate::columns::{field_bytes, first_column, last_column};
use crate::number_fault::number_fault;
use crate::quoted::Quoted;
use crate::words::Amount;
use sheet::faults::{Counted, FieldFault, FormFault, LineFault, OrderFault};
use sheet::fields::{Field, Letter};
use std::fmt;

// A refused line, its number counted from 0, and why it is refused.
#[derive(Drop)]
pub(crate) struct Explanation<'a> {
    pub(crate) line: &'a [u8],
    pub(crate) number: usize,
    pub(crate) fault: LineFault,
}

impl fmt::Display for Explanation<'_> {
    fn fmt<W: fmt::Write>(&self, f: &mut fmt::Formatter<W>) -> fmt::Result {
        self.write_place(f)?;
        match self.fault {
            LineFault::Form(fault) => self.write_form(f, fault),
            LineFault::Field(fault) => self.write_field(f, fault),
            LineFault::Order(fault) => writeln!(f, "{}", order_rule(fault)),
            LineFault::Count(counted) => write_count(f, counted),
        }
    }
}

impl Explanation<'_> {
    fn write_place<W: fmt::Write>(&self, f: &mut fmt::Formatter<W>) -> fmt::Result {
        let refusal = self.fault.number();
        let number = self.number;
        let from_one = number.saturating_add(1);
        let text = Quoted(self.line);
        writeln!(
            f,
            "The sheet does not read: refusal {refusal} at line {number}, counted from 0 (line {from_one}, counted from 1)."
        )?;
        writeln!(f, "The line is {text}.")
    }

    fn write_form<W: fmt::Write>(
        &self,
        f: &mut fmt::Formatter<W>,
        fault: FormFault,
    ) -> fmt::Result {
        match fault {
            FormFault::UnknownLetter => self.write_letter(f),
            FormFault::NoLineFeed => writeln!(
                f,
                "The line does not end with a line feed. Every line must end with one, the last line too."
            ),
            FormFault::WrongLength => self.write_length(f),
        }
    }

    fn write_letter<W: fmt::Write>(&self, f: &mut fmt::Formatter<W>) -> fmt::Result {
        match self.line {
            [] | [b'\n', ..] => writeln!(f, "The line is empty. A sheet has no empty lines.")?,
            [first, ..] => {
                let bytes = [*first];
                let letter = Quoted(&bytes);
                writeln!(
                    f,
                    "The line begins with {letter}, which is no letter of a line."
                )?
            }
        }
        writeln!(
            f,
            "A line must begin with L (library method), M (own method), I (instruction) or X (handler)."
        )
    }

    // A line of a wrong length has a letter: the reader looks at the letter first.
    fn write_length<W: fmt::Write>(&self, f: &mut fmt::Formatter<W>) -> fmt::Result {
        let [first, ..] = self.line else {
            return Ok(());
        };
        let Ok(letter) = Letter::try_from(*first) else {
            return Ok(());
        };
        let name = char::from(*first);
        let right = letter.line_length();
        let length = Amount(self.line.len(), "byte");
        writeln!(
            f,
            "The line has {length}, but every {name} line has {right}, both counted with the letter and the line feed."
        )?;
        match self.line {
            [.., b'\r', b'\n'] => writeln!(
                f,
                "It ends with a carriage return and a line feed; it must end with a line feed alone."
            ),
            _ => Ok(()),
        }
    }

    fn write_field<W: fmt::Write>(
        &self,
        f: &mut fmt::Formatter<W>,
        fault: FieldFault,
    ) -> fmt::Result {
        let line = self.line;
        match fault {
            FieldFault::NoNumber(field) => InField { line, field }.write_no_number(f),
            FieldFault::OutOfRange(field) => InField { line, field }.write_out_of_range(f),
        }
    }
}

// A field of a line.
#[derive(Drop)]
struct InField<'a> {
    line: &'a [u8],
    field: Field,
}

impl InField<'_> {
    fn bytes(&self) -> &[u8] {
        field_bytes(self.line, self.field)
    }

    // The field with its columns and its bytes, as the beginning of a sentence.
    fn write_holding<W: fmt::Write>(&self, f: &mut fmt::Formatter<W>) -> fmt::Result {
        let field = self.field;
        let first = first_column(self.field);
        let last = last_column(self.field);
        let bytes = Quoted(self.bytes());
        write!(
            f,
            "The field {field}, columns {first} to {last}, holds {bytes}, "
        )
    }

    fn write_no_number<W: fmt::Write>(&self, f: &mut fmt::Formatter<W>) -> fmt::Result {
        self.write_holding(f)?;
        match number_fault(self.bytes()) {
            Some(fault) => writeln!(f, "which is no number: {fault}.")?,
            None => writeln!(f, "which is no number.")?,
        }
        self.write_range(f)?;
        writeln!(
            f,
            "A number must stand at the right end of its field, with blanks in front and no leading zeros."
        )
    }

    fn write_out_of_range<W: fmt::Write>(&self, f: &mut fmt::Formatter<W>) -> fmt::Result {
        self.write_holding(f)?;
        writeln!(f, "which is out of range.")?;
        self.write_range(f)
    }

    fn write_range<W: fmt::Write>(&self, f: &mut fmt::Formatter<W>) -> fmt::Result {
        let least = self.field.least();
        let greatest = self.field.greatest();
        match self.field {
            Field::Op => writeln!(f, "Ops run from {least} to {greatest}."),
            _ => writeln!(f, "It must hold a number from {least} to {greatest}."),
        }
    }
}

// The rule of the order of lines that a line breaks.
fn order_rule(fault: OrderFault) -> &'static str {
    match fault {
        OrderFault::LibraryBehindMethod => {
            "An L line stands behind an M line. All L lines must stand ahead of the first M line."
        }
        OrderFault::NoMethodYet => {
            "No M line stands ahead of this line. The I and X lines of a method must stand behind its M line."
        }
        OrderFault::InstructionBehindHandler => {
            "An I line stands behind an X line of its method. All I lines of a method must stand ahead of its X lines."
        }
    }
}

fn write_count<W: fmt::Write>(f: &mut fmt::Formatter<W>, counted: Counted) -> fmt::Result {
    let most = match counted {
        Counted::LibraryMethods => "32 L lines (library methods)",
        Counted::OwnMethods => "16 M lines (own methods)",
        Counted::Instructions => "2048 I lines (instructions)",
        Counted::Handlers => "256 X lines (handlers)",
    };
    writeln!(f, "A sheet has at most {most}, and this is one more.")
}
