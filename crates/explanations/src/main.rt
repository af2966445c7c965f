// Prints the report on the text of each case of a table, behind the comment of the case.
#![tactic(auto)]

use cases::{Cases, read_table};
use checking::checked::CheckedSheet;
use sheet_text::read_sheet::ReadSheet;
use std::io;
use vetting::report::report;

fn main(rt: HostRuntime) -> io::Result<()> {
    let heap = rt.alloc();
    let table = read_table(&rt)?;
    let mut sheet = ReadSheet::new(heap)?;
    let mut checked = CheckedSheet::new(heap)?;
    for case in Cases(table.as_slice()) {
        let comment = case.comment.escape_ascii();
        let told = report(heap, &mut sheet, &mut checked, case.text)?;
        println!(rt; "== {comment}")?;
        print!(rt; "{told}")?;
    }
    Ok(())
}
