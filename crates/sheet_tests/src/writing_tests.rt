use large_texts::largest;
use refusal::Refusal;
use sheet_text::read_sheet::ReadSheet;
use std::alloc::Global;
use std::test::Fail;

// The sheet that a text says.
fn sheet_of(heap: Global, text: &[u8]) -> Result<ReadSheet, Fail> {
    let mut sheet = ReadSheet::new(heap)?;
    sheet
        .read(text)
        .map_err(|_| Fail::new("the text does not read"))?;
    Ok(sheet)
}

#[test]
fn the_largest_sheet_writes(rt: HostRuntime) -> Result<(), Fail> {
    let heap = rt.alloc();
    let text = largest(heap)?;
    let sheet = sheet_of(heap, text.as_slice())?;
    assert_eq!(rt; sheet.text_length(), 50208);
    let mut buffer = vec![in heap; b'?'; 50208]?;
    assert_eq!(rt; sheet.write(buffer.as_mut_slice()), Ok(50208));
    assert!(rt; buffer == text);
    Ok(())
}

#[test]
fn a_short_buffer_stays(rt: HostRuntime) -> Result<(), Fail> {
    let heap = rt.alloc();
    let text = largest(heap)?;
    let sheet = sheet_of(heap, text.as_slice())?;
    let mut buffer = vec![in heap; b'?'; 50207]?;
    let written = sheet.write(buffer.as_mut_slice()).map_err(Refusal::from);
    assert_eq!(rt; written.map_err(|refusal| refusal.number), Err(5));
    assert!(rt; buffer == vec![in heap; b'?'; 50207]?);
    Ok(())
}

#[test]
fn a_long_buffer_keeps_its_end(rt: HostRuntime) -> Result<(), Fail> {
    let heap = rt.alloc();
    let mut text = largest(heap)?;
    let sheet = sheet_of(heap, text.as_slice())?;
    let mut buffer = vec![in heap; b'?'; 50210]?;
    assert_eq!(rt; sheet.write(buffer.as_mut_slice()), Ok(50208));
    text.extend_from_slice(b"??")?;
    assert!(rt; buffer == text);
    Ok(())
}
