// Reads the text of each case of a table as a sheet and prints what came of it, a line for each.
#![tactic(auto)]

use cases::{Cases, print_answer, read_table};
use refusal::Refusal;
use sheet_text::read_sheet::ReadSheet;
use sheet_text::reading::TextSheet;
use std::io;

// The sheet that a text says, or its refusal.
fn answer<'a>(sheet: &'a mut ReadSheet, text: &[u8]) -> Result<&'a TextSheet, Refusal> {
    sheet.read(text)?;
    Ok(sheet.contents())
}

// All cases are read into one sheet, so that each also shows that the one ahead of it left nothing
// behind.
fn main(rt: HostRuntime) -> io::Result<()> {
    let table = read_table(&rt)?;
    let mut sheet = ReadSheet::new(rt.alloc())?;
    for (number, case) in Cases(table.as_slice()).enumerate() {
        print_answer(&rt, number, &case, answer(&mut sheet, case.text))?;
    }
    Ok(())
}
