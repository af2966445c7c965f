// The check of a whole sheet.
ghost use Rattle.std.specs.Prelude.{◌≡◌, ◌+◌, ◌<◌, true, [], length, Ok, Err, IfErr, OnOk};
ghost use Rattle.sheet.specs.Bounds.{in_range};
ghost use Rattle.check_rules.specs.Check.{checked, shapes_of};

use crate::checked::CheckedStore;
use crate::method::MethodCheck;
use arrayvec::ArrayVec;
use check_rules::around::Around;
use check_rules::faults::{CheckFault, MethodFault};
use sheet::instruction::Instruction;
use sheet::location::PlainLocation;
use sheet::records::Shape;
use sheet_text::reading::TextSheet;

// A sheet to be checked, and the shapes of its own methods.
#[derive(Clone, Copy)]
struct SheetCheck<'a> {
    read: &'a TextSheet,
    shapes: &'a [Shape],
    ghost read_in_range: { in_range read.now ≡ true },
    ghost own_shapes: { shapes.now ≡ shapes_of read.now.methods },
}

impl<'a> SheetCheck<'a> {
    ghost use Rattle.sheet.specs.View.{method_at};
    ghost use Rattle.sheet_store.specs.Adding.{whole};
    ghost use Rattle.check_rules.specs.declared.faults.CheckFault.TheVariants.{Method as InMethod};
    ghost use Rattle.checking.specs.Methods.{MadeUpTo, Refused};

    // The method of this number, to be checked.
    fn method(&self, number: usize) -> MethodCheck<'a>
        requires { number < length self.now.read.now.methods }
        ensures library { result.around.library.now ≡ self.now.read.now.library }
        ensures shapes { result.around.shapes.now ≡ self.now.shapes.now }
        ensures method { whole result.around.own result.read.now result.handlers.now
            ≡ method_at self.now.read.now number }
    {
        let read = self.read.code(number);
        MethodCheck {
            around: Around {
                library: self.read.library(),
                shapes: self.shapes,
                own: self.shapes[number],
                count: read.len() as u16,
            },
            read,
            handlers: self.read.handlers(number),
        }
    }

    // Checks the method of this number, and adds it to the checked ones. The list is for its
    // instructions; what it held does not matter.
    fn check_one(
        &self,
        number: usize,
        list: &mut [Instruction<PlainLocation>],
        out: &mut CheckedStore,
    ) -> Result<(), MethodFault>
        requires inside { number < length self.now.read.now.methods }
        requires long_enough { length list.old ≡ 2048 }
        requires made { MadeUpTo self.now.read.now number out.old }
        ensures ok { OnOk result (MadeUpTo self.now.read.now (number + 1) out.new) }
        ensures err { IfErr result (λ e. Refused self.now.read.now (InMethod number e)) }
    {
        let method = self.method(number);
        let code = &mut list[..method.read.len()];
        method.check(code)?;
        out.add_whole(method.around.own, code, method.handlers)
            .unwrap();
        Ok(())
    }

    // Checks all methods in order, and adds them to a sheet that has none.
    fn check_all(&self, out: &mut CheckedStore) -> Result<(), CheckFault>
        requires { out.old ≡ record { library = self.now.read.now.library; methods = [] } }
        ensures ok { OnOk result
            (MadeUpTo self.now.read.now (length self.now.read.now.methods) out.new) }
        ensures err { IfErr result (λ e. Refused self.now.read.now e) }
    {
        // A place for each instruction of the longest method, since a check takes no memory.
        let mut list = [Instruction::Return; 2048];
        // By number: it is the place of a fault, and a stored sheet lends its methods by number.
        for method in 0..self.read.method_count() {
            self.check_one(method, &mut list, out)
                .map_err(|fault| CheckFault::Method(method, fault))?;
        }
        Ok(())
    }
}

// The shapes of all own methods of a sheet.
fn own_shapes(read: &TextSheet) -> ArrayVec<Shape, 16>
    ensures { result.items ≡ shapes_of read.now.methods }
{
    let mut shapes = ArrayVec::new();
    // By number: a stored sheet keeps where its methods begin, and lends them by number.
    for method in 0..read.method_count() {
        shapes.push(read.shape(method).unwrap());
    }
    shapes
}

// Checks a sheet in the place of what was there.
pub(crate) fn check_into(read: &TextSheet, out: &mut CheckedStore) -> Result<(), CheckFault>
    requires { in_range read.now ≡ true }
    ensures ok { OnOk result (checked read.now ≡ Ok out.new) }
    ensures err { IfErr result (λ e. checked read.now ≡ Err e) }
{
    let count = read.method_count();
    if count == 0 {
        return Err(CheckFault::NoMethod);
    }
    out.restart(read.library()).unwrap();
    let shapes = own_shapes(read);
    let sheet = SheetCheck {
        read,
        shapes: shapes.as_slice(),
    };
    sheet.check_all(out)
}
