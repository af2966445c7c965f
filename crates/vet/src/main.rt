// Reads a sheet from standard input, checks it, and says what was read, or what is wrong with which line or method.
#![tactic(auto)]

use checking::checked::CheckedSheet;
use sheet_text::read_sheet::ReadSheet;
use std::io;
use std::io::Read;
use vetting::report::report;

// More than the largest text has, so that a longer one is refused all the same.
const MOST_BYTES: u64 = 65536;

fn main(rt: HostRuntime) -> io::Result<()> {
    let heap = rt.alloc();
    let mut text = Vec::new(heap);
    rt.stdin().take(MOST_BYTES).read_to_end(&mut text)?;
    let mut sheet = ReadSheet::new(heap)?;
    let mut checked = CheckedSheet::new(heap)?;
    let told = report(heap, &mut sheet, &mut checked, text.as_slice())?;
    print!(rt; "{told}")
}
