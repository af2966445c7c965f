// One line of a text: its letter, its fields and its line feed.
ghost use Rattle.std.specs.Prelude.{◌≡◌, ◌≤◌, length, take, drop, pos, Ok, Err, IfOk, IfErr};
ghost use Rattle.sheet.specs.Columns.{field_read};
ghost use Rattle.sheet.specs.Fields.{width_of, widths, fields_of, lowest, highest};
ghost use Rattle.sheet.specs.Lines.{parted, fields_read, line_read};
ghost use Rattle.sheet.specs.declared.fields.Letter.TheVariants.{L, M, I, X};

use crate::number::{judge, read_column};
use sheet::faults::{FieldFault, FormFault, LineFault};
use sheet::fields::{Field, Letter};
use sheet::location::PlainLocation;
use sheet::op::Op;
use sheet::records::{Handler, Kind, Line, ReadInstruction, Shape, Signature};
use std::marker::Model;

// The letter of a line and what stands between it and the line feed.
fn parts(line: &[u8]) -> Result<(Letter, &[u8]), FormFault>
    ensures ok { IfOk result (λ p. parted line.now ≡ Ok (p.0, p.1.now)) }
    ensures err { IfErr result (λ e. parted line.now ≡ Err e) }
{
    match line {
        [letter, fields @ .., b'\n'] => {
            let letter = Letter::try_from(*letter)?;
            if fields.len() != letter.columns() {
                return Err(FormFault::WrongLength);
            }
            Ok((letter, fields))
        }
        [letter, ..] => {
            Letter::try_from(*letter)?;
            Err(FormFault::NoLineFeed)
        }
        [] => Err(FormFault::UnknownLetter),
    }
}

// The columns of a line that are still to be read. Contracts see their bytes.
#[derive(Drop)]
struct Columns<'a> {
    rest: &'a [u8],
}

impl<'a> Model for Columns<'a> {
    ghost use Rattle.std.specs.Prelude.{ℕ, List};

    ghost Value = { List ℕ };

    ghost view = { λ c. c.rest.now };
}

impl<'a> Columns<'a> {
    fn new(fields: &'a [u8]) -> Columns<'a>
        ensures { result ≡ fields.now }
    {
        Columns { rest: fields }
    }

    // The number in the next field.
    fn next(&mut self, field: Field) -> Result<i32, FieldFault>
        requires { width_of field ≤ length self.old }
        ensures number { field_read field (take (width_of field) self.old) ≡ result }
        ensures rest { self.new ≡ drop (width_of field) self.old }
    {
        let (column, rest) = self.rest.split_at(field.width());
        self.rest = rest;
        judge(field, read_column(column))
    }

    // The location in the next field.
    fn location(&mut self, field: Field) -> Result<PlainLocation, FieldFault>
        requires enough_columns { width_of field ≤ length self.old }
        requires holds_location { (lowest field ≡ pos 0) × (highest field ≡ pos 2048) }
        ensures ok { IfOk result (λ l.
            field_read field (take (width_of field) self.old) ≡ Ok (pos l.number)) }
        ensures err { IfErr result (λ e.
            field_read field (take (width_of field) self.old) ≡ Err e) }
        ensures rest { self.new ≡ drop (width_of field) self.old }
    {
        let number = self.next(field)?;
        Ok(PlainLocation::new(number as u16))
    }
}

// The library method that the fields of an L line declare.
fn read_signature(fields: &[u8]) -> Result<Line, FieldFault>
    requires { length fields.now ≡ widths (fields_of L) }
    ensures { result ≡ fields_read L fields.now }
{
    let mut columns = Columns::new(fields);
    let arguments = columns.next(Field::Arguments)?;
    let gives = columns.next(Field::Gives)?;
    let watched = columns.next(Field::Watched)?;
    Ok(Line::Library(Signature {
        arguments: arguments as u8,
        gives: gives == 1,
        watched: watched == 1,
    }))
}

// The own method that the fields of an M line declare.
fn read_shape(fields: &[u8]) -> Result<Line, FieldFault>
    requires { length fields.now ≡ widths (fields_of M) }
    ensures { result ≡ fields_read M fields.now }
{
    let mut columns = Columns::new(fields);
    let arguments = columns.next(Field::Arguments)?;
    let gives = columns.next(Field::Gives)?;
    let locals = columns.next(Field::Locals)?;
    let stack_limit = columns.next(Field::StackLimit)?;
    Ok(Line::Method(Shape {
        arguments: arguments as u8,
        gives: gives == 1,
        locals: locals as u8,
        stack_limit: stack_limit as u8,
    }))
}

// The instruction of an I line.
fn read_instruction(fields: &[u8]) -> Result<Line, FieldFault>
    requires { length fields.now ≡ widths (fields_of I) }
    ensures { result ≡ fields_read I fields.now }
{
    let mut columns = Columns::new(fields);
    let number = columns.next(Field::Op)?;
    let operand = columns.next(Field::Operand)?;
    // The field holds 1 to 18, and each of these has its op.
    let op = Op::try_from(number as u8).unwrap();
    Ok(Line::Instruction(ReadInstruction { op, operand }))
}

// The handler of an X line.
fn read_handler(fields: &[u8]) -> Result<Line, FieldFault>
    requires { length fields.now ≡ widths (fields_of X) }
    ensures { result ≡ fields_read X fields.now }
{
    let mut columns = Columns::new(fields);
    let try_begin = columns.location(Field::TryBegin)?;
    let try_end = columns.location(Field::TryEnd)?;
    let number = columns.next(Field::Kind)?;
    let catch_begin = columns.location(Field::CatchBegin)?;
    let catch_end = columns.location(Field::CatchEnd)?;
    // The field holds 1 or 2, and each of these has its kind.
    let kind = Kind::try_from(number as u8).unwrap();
    Ok(Line::Handler(Handler {
        try_begin,
        try_end,
        kind,
        catch_begin,
        catch_end,
    }))
}

// What the fields behind a letter say.
fn read_fields(letter: Letter, fields: &[u8]) -> Result<Line, FieldFault>
    requires { length fields.now ≡ widths (fields_of letter) }
    ensures { result ≡ fields_read letter fields.now }
{
    match letter {
        Letter::L => read_signature(fields),
        Letter::M => read_shape(fields),
        Letter::I => read_instruction(fields),
        Letter::X => read_handler(fields),
    }
}

// What a line says.
pub(crate) fn read_line(line: &[u8]) -> Result<Line, LineFault>
    ensures { result ≡ line_read line.now }
{
    let (letter, fields) = parts(line)?;
    Ok(read_fields(letter, fields)?)
}
