// A sheet that is read from its text and written as its text.
ghost use Rattle.std.specs.Prelude.{◌≡◌, ◌<◌, true, length, IfOk, Ok, Err, OnOk, OnErr, IfErr};
ghost use Rattle.sheet.specs.Bounds.{in_range};
ghost use Rattle.sheet.specs.Laws.{OneText};
ghost use Rattle.sheet.specs.Reading.{reading, TextSheet as SheetOfText};
ghost use Rattle.sheet.specs.Text.{placed, sheet_text};
ghost use Rattle.sheet.specs.View.{empty_sheet};
ghost use Rattle.sheet.specs.declared.faults.SheetFault.TheVariants.{ShortBuffer};

use crate::output::Output;
use crate::reading::{TextSheet, fill};
use crate::writing::put_methods;
use sheet::faults::SheetFault;
use sheet::fields::Letter;
use sheet_store::stored::StoredSheet;
use std::alloc::{AllocError, Global};
use std::marker::Model;

// A sheet that was read and not yet checked, or an empty one. Contracts see it as the sheet that
// it holds.
#[derive(Drop)]
pub struct ReadSheet {
    stored: TextSheet,
}

impl Model for ReadSheet {
    ghost use Rattle.std.specs.Prelude.{◌≡◌, true};
    ghost use Rattle.sheet.specs.Bounds.{in_range};
    ghost use Rattle.sheet.specs.Reading.{TextSheet as SheetOfText};

    ghost Value = { SheetOfText };

    ghost view = { λ s. s.stored };

    ghost invariant = { λ s. in_range s.stored ≡ true };
}

impl ReadSheet {
    // An empty sheet, with memory for the largest: the only call that can want memory.
    pub fn new(heap: Global) -> Result<ReadSheet, AllocError>
        ensures { IfOk result (λ s. s ≡ empty_sheet) }
    {
        let stored = StoredSheet::new(heap)?;
        Ok(ReadSheet { stored })
    }

    // Reads a text in the place of what was there. A refused reading leaves the sheet empty.
    pub fn read(&mut self, text: &[u8]) -> Result<(), SheetFault>
        ensures ok { OnOk result (reading text.now ≡ Ok self.new) }
        ensures err { IfErr result (λ e. reading text.now ≡ Err e) }
        ensures emptied { OnErr result (self.new ≡ empty_sheet) }
        ensures one_text { (s : SheetOfText) → OneText text.now s }
    {
        fill(&mut self.stored, text)
    }

    // The sheet, to look at.
    pub fn contents(&self) -> &TextSheet
        ensures sheet { result.now ≡ self.now }
        ensures in_range { in_range result.now ≡ true }
    {
        &self.stored
    }

    // How long the text of the sheet is.
    pub fn text_length(&self) -> usize
        ensures { result ≡ length (sheet_text self.now) }
    {
        let sheet = self.contents();
        Letter::L.line_length() * sheet.library().len()
            + Letter::M.line_length() * sheet.method_count()
            + Letter::I.line_length() * sheet.instruction_count()
            + Letter::X.line_length() * sheet.handler_count()
    }

    // Writes the text of the sheet to the start of a buffer, and says how long it is. A buffer that
    // is too short is left as it is.
    pub fn write(&self, out: &mut [u8]) -> Result<usize, SheetFault>
        ensures length { IfOk result (λ n. n ≡ length (sheet_text self.now)) }
        ensures written { OnOk result (out.new ≡ placed 0 (sheet_text self.now) out.old) }
        ensures err { IfErr result (λ e. e ≡ ShortBuffer) }
        ensures short { OnErr result (length out.old < length (sheet_text self.now)) }
        ensures kept { OnErr result (out.new ≡ out.old) }
        ensures read_back { reading (sheet_text self.now) ≡ Ok self.now }
    {
        let sheet = self.contents();
        let length = self.text_length();
        if out.len() < length {
            return Err(SheetFault::ShortBuffer);
        }
        let mut text = Output::new(out);
        text.all(sheet.library());
        put_methods(sheet, &mut text);
        Ok(length)
    }
}
