// An own method of a sheet, by its number.
use crate::words::Amount;
use sheet::location::PlainLocation;
use sheet::records::{Handler, ReadInstruction, Shape};
use sheet_text::reading::TextSheet;

#[derive(Drop)]
pub(crate) struct OwnMethod<'a> {
    pub(crate) sheet: &'a TextSheet,
    pub(crate) number: usize,
    pub(crate) shape: Shape,
}

impl<'a> OwnMethod<'a> {
    // None where the sheet has no such method.
    pub(crate) fn of(sheet: &'a TextSheet, number: usize) -> Option<OwnMethod<'a>> {
        let shape = sheet.shape(number)?;
        Some(OwnMethod {
            sheet,
            number,
            shape,
        })
    }

    pub(crate) fn code(&self) -> &[ReadInstruction] {
        self.sheet.code(self.number)
    }

    pub(crate) fn handlers(&self) -> &[Handler<PlainLocation>] {
        self.sheet.handlers(self.number)
    }

    pub(crate) fn arguments(&self) -> Amount {
        Amount(usize::from(self.shape.arguments), "argument")
    }

    pub(crate) fn locals(&self) -> Amount {
        Amount(usize::from(self.shape.locals), "local")
    }

    pub(crate) fn instructions(&self) -> Amount {
        Amount(self.code().len(), "instruction")
    }
}
