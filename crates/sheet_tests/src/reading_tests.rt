use large_texts::{HANDLER, INSTRUCTION, largest, one_method};
use refusal::Refusal;
use sheet_text::read_sheet::ReadSheet;
use std::test::Fail;

// What comes of reading a text.
fn outcome(sheet: &mut ReadSheet, text: &[u8]) -> Result<(), Refusal> {
    sheet.read(text)?;
    Ok(())
}

// A refusal with this number at this line.
fn refused(number: u8, first: usize) -> Result<(), Refusal> {
    Err(Refusal {
        number,
        first,
        second: 0,
    })
}

// How many library methods, own methods, instructions and handlers a sheet has.
fn counts(sheet: &ReadSheet) -> [usize; 4] {
    let sheet = sheet.contents();
    [
        sheet.library().len(),
        sheet.method_count(),
        sheet.instruction_count(),
        sheet.handler_count(),
    ]
}

#[test]
fn instructions_are_counted(rt: HostRuntime) -> Result<(), Fail> {
    let heap = rt.alloc();
    let mut sheet = ReadSheet::new(heap)?;
    let all = one_method(heap, INSTRUCTION, 2048)?;
    assert_eq!(rt; outcome(&mut sheet, all.as_slice()), Ok(()));
    assert_eq!(rt; counts(&sheet), [0, 1, 2048, 0]);
    assert_eq!(rt; sheet.contents().code(0).len(), 2048);
    let beyond = one_method(heap, INSTRUCTION, 2049)?;
    assert_eq!(rt; outcome(&mut sheet, beyond.as_slice()), refused(4, 2049));
    Ok(())
}

#[test]
fn handlers_are_counted(rt: HostRuntime) -> Result<(), Fail> {
    let heap = rt.alloc();
    let mut sheet = ReadSheet::new(heap)?;
    let all = one_method(heap, HANDLER, 256)?;
    assert_eq!(rt; outcome(&mut sheet, all.as_slice()), Ok(()));
    assert_eq!(rt; counts(&sheet), [0, 1, 0, 256]);
    assert_eq!(rt; sheet.contents().handlers(0).len(), 256);
    let beyond = one_method(heap, HANDLER, 257)?;
    assert_eq!(rt; outcome(&mut sheet, beyond.as_slice()), refused(4, 257));
    Ok(())
}

#[test]
fn the_largest_sheet_reads(rt: HostRuntime) -> Result<(), Fail> {
    let heap = rt.alloc();
    let mut sheet = ReadSheet::new(heap)?;
    let text = largest(heap)?;
    assert_eq!(rt; text.len(), 50208);
    assert_eq!(rt; outcome(&mut sheet, text.as_slice()), Ok(()));
    assert_eq!(rt; counts(&sheet), [32, 16, 2048, 256]);
    assert_eq!(rt; sheet.contents().code(15).len(), 128);
    assert_eq!(rt; sheet.contents().handlers(15).len(), 16);
    Ok(())
}

#[test]
fn a_sheet_is_read_into_again(rt: HostRuntime) -> Result<(), Fail> {
    let heap = rt.alloc();
    let mut sheet = ReadSheet::new(heap)?;
    let text = largest(heap)?;
    assert_eq!(rt; outcome(&mut sheet, text.as_slice()), Ok(()));
    assert_eq!(rt;
        outcome(&mut sheet, b"L     6     1     1\n\n"),
        refused(1, 1)
    );
    assert_eq!(rt; counts(&sheet), [0, 0, 0, 0]);
    assert_eq!(rt; outcome(&mut sheet, b""), Ok(()));
    assert_eq!(rt; counts(&sheet), [0, 0, 0, 0]);
    assert_eq!(rt; outcome(&mut sheet, text.as_slice()), Ok(()));
    assert_eq!(rt; counts(&sheet), [32, 16, 2048, 256]);
    Ok(())
}
