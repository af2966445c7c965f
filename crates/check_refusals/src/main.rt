// Checks the sheet of each case of a table and prints what came of it, a line for each case.
#![tactic(auto)]

use cases::{Cases, print_answer, read_table};
use checking::checked::{CheckedSheet, CheckedStore};
use refusal::Refusal;
use sheet_text::read_sheet::ReadSheet;
use std::io;

// The checked sheet of a text, or the refusal of one that does not read or is not checked.
fn answer<'a>(
    sheet: &mut ReadSheet,
    checked: &'a mut CheckedSheet,
    text: &[u8],
) -> Result<&'a CheckedStore, Refusal> {
    sheet.read(text)?;
    checked.check(sheet)?;
    Ok(checked.contents())
}

// All cases are checked into one sheet, so that each also shows that the one ahead of it left
// nothing behind.
fn main(rt: HostRuntime) -> io::Result<()> {
    let table = read_table(&rt)?;
    let mut sheet = ReadSheet::new(rt.alloc())?;
    let mut checked = CheckedSheet::new(rt.alloc())?;
    for (number, case) in Cases(table.as_slice()).enumerate() {
        let answer = answer(&mut sheet, &mut checked, case.text);
        print_answer(&rt, number, &case, answer)?;
    }
    Ok(())
}
