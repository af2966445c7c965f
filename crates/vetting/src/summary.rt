// What is told of a sheet behind the words "The sheet passes".
ghost use Rattle.std.specs.Prelude.{◌≡◌, count_by};

use crate::own_method::OwnMethod;
use crate::words::Amount;
use sheet::records::Signature;
use sheet_text::reading::TextSheet;
use std::fmt;

#[derive(Drop)]
pub(crate) struct Summary<'a>(pub(crate) &'a TextSheet);

impl fmt::Display for Summary<'_> {
    fn fmt<W: fmt::Write>(&self, f: &mut fmt::Formatter<W>) -> fmt::Result {
        let sheet = self.0;
        write_totals(f, sheet)?;
        // A method is known by its number, which is printed too, so the loop is over numbers.
        for method in (0..sheet.method_count()).filter_map(|number| OwnMethod::of(sheet, number)) {
            write_method(f, &method)?;
        }
        Ok(())
    }
}

// How many library methods are watched.
fn watched_count(library: &[Signature]) -> usize
    ensures { result ≡ count_by (λ s. s.watched) library.now }
{
    library.iter().filter(|signature| signature.watched).count()
}

fn write_totals<W: fmt::Write>(f: &mut fmt::Formatter<W>, sheet: &TextSheet) -> fmt::Result {
    let library = Amount(sheet.library().len(), "library method");
    let watched = watched_count(sheet.library());
    let methods = Amount(sheet.method_count(), "own method");
    let instructions = Amount(sheet.instruction_count(), "instruction");
    let handlers = Amount(sheet.handler_count(), "handler");
    writeln!(
        f,
        ": {library} ({watched} watched), {methods}, {instructions}, {handlers}."
    )
}

fn write_method<W: fmt::Write>(f: &mut fmt::Formatter<W>, method: &OwnMethod) -> fmt::Result {
    let number = method.number;
    let arguments = method.arguments();
    let value = if method.shape.gives {
        "a value"
    } else {
        "nothing"
    };
    let locals = method.locals();
    let limit = method.shape.stack_limit;
    let instructions = method.instructions();
    let handlers = Amount(method.handlers().len(), "handler");
    writeln!(
        f,
        "Method {number}: takes {arguments}, gives {value}, {locals}, stack limit {limit}, {instructions}, {handlers}."
    )
}
