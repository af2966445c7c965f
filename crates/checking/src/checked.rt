// The checked sheet.
ghost use Rattle.std.specs.Prelude.{◌≡◌, Ok, Err, IfOk, IfErr, OnOk, OnErr};
ghost use Rattle.sheet.specs.View.{empty_sheet};
ghost use Rattle.check_rules.specs.Check.{CheckedForm, checked};
ghost use Rattle.check_rules.specs.CheckLaws.{SheetLaw};

use crate::check::check_into;
use check_rules::faults::CheckFault;
use sheet::instruction::Instruction;
use sheet::location::PlainLocation;
use sheet::records::Handler;
use sheet_store::stored::StoredSheet;
use sheet_text::read_sheet::ReadSheet;
use std::alloc::{AllocError, Global};
use std::marker::Model;

// A stored sheet whose instructions are decoded.
pub type CheckedStore = StoredSheet<Instruction<PlainLocation>, Handler<PlainLocation>>;

// A sheet that passed the check, or an empty one. Nothing but the check fills it. Contracts see it
// as the sheet that it holds. It is a type of its own, and none with a parameter for what was passed,
// so that the compiler refuses a read sheet in its place; what the two share is `StoredSheet`.
#[derive(Drop)]
pub struct CheckedSheet {
    stored: CheckedStore,
}

impl Model for CheckedSheet {
    ghost use Rattle.check_rules.specs.Check.{CheckedForm};
    ghost use Rattle.checking.specs.Methods.{AllChecked};

    ghost Value = { CheckedForm };

    ghost view = { λ s. s.stored };

    ghost invariant = { λ s. AllChecked s.stored };
}

impl CheckedSheet {
    ghost use Rattle.checking.specs.Methods.{AllChecked};

    // An empty sheet, with memory for the largest: the only call that can want memory.
    pub fn new(heap: Global) -> Result<CheckedSheet, AllocError>
        ensures { IfOk result (λ s. s ≡ empty_sheet) }
    {
        let stored = StoredSheet::new(heap)?;
        Ok(CheckedSheet { stored })
    }

    // Checks a read sheet, and holds the checked one in the place of what was there. A refused one
    // leaves the sheet empty.
    pub fn check(&mut self, read: &ReadSheet) -> Result<(), CheckFault>
        ensures ok { OnOk result (checked read.now ≡ Ok self.new) }
        ensures err { IfErr result (λ e. checked read.now ≡ Err e) }
        ensures emptied { OnErr result (self.new ≡ empty_sheet) }
        ensures law { (s : CheckedForm) → SheetLaw s }
    {
        let checked = check_into(read.contents(), &mut self.stored);
        if checked.is_err() {
            self.stored.clear();
        }
        checked
    }

    // The sheet, to look at.
    pub fn contents(&self) -> &CheckedStore
        ensures sheet { result.now ≡ self.now }
        ensures passed { AllChecked result.now }
    {
        &self.stored
    }
}
