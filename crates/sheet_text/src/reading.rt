// Reading a text into a stored sheet, line by line.
ghost use Rattle.std.specs.Prelude.{◌≡◌, Ok, Err, OnOk, OnErr, IfErr};
ghost use Rattle.sheet.specs.Reading.{line_taken, reading};
ghost use Rattle.sheet.specs.declared.records.Line.TheVariants.{Library, Method, Instruction, Handler as OfHandler};
ghost use Rattle.sheet.specs.View.{empty_sheet};
ghost use Rattle.sheet_text.specs.Taking.{Taken, not_added};

use crate::line::read_line;
use crate::lines::Lines;
use sheet::faults::{Counted, LineFault, OrderFault, SheetFault};
use sheet::location::PlainLocation;
use sheet::records::{Handler, Line, ReadInstruction, Shape, Signature};
use sheet_store::stored::{AddFault, StoredSheet};

// A sheet as a text has it.
pub type TextSheet = StoredSheet<ReadInstruction, Handler<PlainLocation>>;

// A library method, which stands ahead of all own methods.
fn take_signature(sheet: &mut TextSheet, signature: Signature) -> Result<(), LineFault>
    ensures { Taken sheet.old (Library signature) result sheet.new }
{
    if sheet.method_count() > 0 {
        return Err(OrderFault::LibraryBehindMethod.into());
    }
    sheet
        .add_signature(signature)
        .map_err(|_| Counted::LibraryMethods.into())
}

// An own method.
fn take_shape(sheet: &mut TextSheet, shape: Shape) -> Result<(), LineFault>
    ensures { Taken sheet.old (Method shape) result sheet.new }
{
    sheet
        .add_method(shape)
        .map_err(|_| Counted::OwnMethods.into())
}

// Why something is not added to the last method.
fn refused(fault: AddFault, counted: Counted) -> LineFault
    ensures { result ≡ not_added fault counted }
{
    match fault {
        AddFault::NoMethod => OrderFault::NoMethodYet.into(),
        AddFault::Full => counted.into(),
    }
}

// An instruction of the last method, which stands ahead of the handlers of that method.
fn take_instruction(sheet: &mut TextSheet, instruction: ReadInstruction) -> Result<(), LineFault>
    ensures { Taken sheet.old (Instruction instruction) result sheet.new }
{
    if !sheet.last_has_no_handler() {
        return Err(OrderFault::InstructionBehindHandler.into());
    }
    sheet
        .add_instruction(instruction)
        .map_err(|fault| refused(fault, Counted::Instructions))
}

// A handler of the last method.
fn take_handler(sheet: &mut TextSheet, handler: Handler<PlainLocation>) -> Result<(), LineFault>
    ensures { Taken sheet.old (OfHandler handler) result sheet.new }
{
    sheet
        .add_handler(handler)
        .map_err(|fault| refused(fault, Counted::Handlers))
}

// A line behind those that were taken.
fn take_line(sheet: &mut TextSheet, line: &[u8]) -> Result<(), LineFault>
    ensures ok { OnOk result (line_taken sheet.old line.now ≡ Ok sheet.new) }
    ensures err { IfErr result (λ e. line_taken sheet.old line.now ≡ Err e) }
{
    match read_line(line)? {
        Line::Library(signature) => take_signature(sheet, signature),
        Line::Method(shape) => take_shape(sheet, shape),
        Line::Instruction(instruction) => take_instruction(sheet, instruction),
        Line::Handler(handler) => take_handler(sheet, handler),
    }
}

// Takes all lines of a text, up to the first that is refused.
fn take_lines(sheet: &mut TextSheet, text: &[u8]) -> Result<(), SheetFault>
    requires { sheet.old ≡ empty_sheet }
    ensures ok { OnOk result (reading text.now ≡ Ok sheet.new) }
    ensures err { IfErr result (λ e. reading text.now ≡ Err e) }
{
    for (number, line) in Lines::of(text).enumerate() {
        take_line(sheet, line).map_err(|fault| SheetFault::Line(number, fault))?;
    }
    Ok(())
}

// Reads a text into a sheet; a sheet that refuses is left empty.
pub(crate) fn fill(sheet: &mut TextSheet, text: &[u8]) -> Result<(), SheetFault>
    ensures ok { OnOk result (reading text.now ≡ Ok sheet.new) }
    ensures err { IfErr result (λ e. reading text.now ≡ Err e) }
    ensures emptied { OnErr result (sheet.new ≡ empty_sheet) }
{
    sheet.clear();
    let taken = take_lines(sheet, text);
    if taken.is_err() {
        sheet.clear();
    }
    taken
}
