// Writing a sheet as its one text.
ghost use Rattle.std.specs.Prelude.{◌<◌, length};
ghost use Rattle.std.specs.List.{flat_map};
ghost use Rattle.sheet.specs.Text.{signature_text, shape_text, instruction_text, handler_text, method_text};
ghost use Rattle.sheet.specs.View.{method_at};
ghost use Rattle.sheet_text.specs.Output.{Fits, Put};

use crate::output::{Output, Piece};
use crate::reading::TextSheet;
use sheet::fields::Letter;
use sheet::location::PlainLocation;
use sheet::records::{Handler, ReadInstruction, Shape, Signature};

impl Piece for Signature {
    ghost text = { signature_text };

    fn put(&self, out: &mut Output<'_>) {
        let fields = [
            u16::from(self.arguments),
            u16::from(self.gives),
            u16::from(self.watched),
        ];
        out.line(Letter::L, &fields);
    }
}

impl Piece for Shape {
    ghost text = { shape_text };

    fn put(&self, out: &mut Output<'_>) {
        let fields = [
            u16::from(self.arguments),
            u16::from(self.gives),
            u16::from(self.locals),
            u16::from(self.stack_limit),
        ];
        out.line(Letter::M, &fields);
    }
}

impl Piece for ReadInstruction {
    ghost text = { instruction_text };

    fn put(&self, out: &mut Output<'_>) {
        out.byte(u8::from(Letter::I));
        u16::from(u8::from(self.op)).put(out);
        self.operand.put(out);
        out.byte(b'\n');
    }
}

impl Piece for Handler<PlainLocation> {
    ghost text = { handler_text };

    fn put(&self, out: &mut Output<'_>) {
        let fields = [
            self.try_begin.number(),
            self.try_end.number(),
            u16::from(u8::from(self.kind)),
            self.catch_begin.number(),
            self.catch_end.number(),
        ];
        out.line(Letter::X, &fields);
    }
}

// Puts an own method with its instructions and handlers.
fn put_method(sheet: &TextSheet, method: usize, out: &mut Output<'_>)
    requires there { method < length sheet.now.methods }
    requires room { Fits (method_text (method_at sheet.now method)) out.old }
    ensures { Put (method_text (method_at sheet.now method)) out.old out.new }
{
    let shape = sheet.shape(method).unwrap();
    shape.put(out);
    out.all(sheet.code(method));
    out.all(sheet.handlers(method));
}

// Puts all own methods, by number, since a stored sheet lends the parts of a method by its number.
pub(crate) fn put_methods(sheet: &TextSheet, out: &mut Output<'_>)
    requires { Fits (flat_map method_text sheet.now.methods) out.old }
    ensures { Put (flat_map method_text sheet.now.methods) out.old out.new }
{
    for method in 0..sheet.method_count() {
        put_method(sheet, method, out);
    }
}
