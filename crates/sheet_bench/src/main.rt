// Measures reading and writing the largest sheet. The number of rounds is its one argument; without
// it nothing is measured, so that the gate, which compares what a program writes, has nothing that
// changes from run to run.
#![tactic(auto)]

use large_texts::largest;
use sheet_text::read_sheet::ReadSheet;
use std::env;
use std::rt::Clock;
use std::time::Instant;

fn measure(rt: &(impl Clock + Print + AllocGlobal), rounds: u32) -> anyhow::Result<()> {
    let heap = rt.alloc();
    let text = largest(heap)?;
    let mut sheet = ReadSheet::new(heap)?;
    let start = Instant::now(rt)?;
    let mut read = 0u32;
    for _ in 0..rounds {
        if sheet.read(text.as_slice()).is_ok() {
            read = read.saturating_add(1);
        }
    }
    let reading = start.elapsed(rt)?.as_micros();
    let mut out = vec![in heap; 0u8; 50208]?;
    let start = Instant::now(rt)?;
    let mut written = 0u32;
    for _ in 0..rounds {
        if sheet.write(out.as_mut_slice()).is_ok() {
            written = written.saturating_add(1);
        }
    }
    let writing = start.elapsed(rt)?.as_micros();
    println!(rt;
        "{read} readings of 50208 bytes in {reading} us, {written} writings in {writing} us"
    )?;
    Ok(())
}

fn main(rt: HostRuntime) -> anyhow::Result<()> {
    match env::args(&rt)?.nth(1) {
        Some(rounds) => measure(&rt, rounds.as_str().parse::<u32>()?),
        None => {
            println!(rt; "usage: sheet_bench ROUNDS")?;
            Ok(())
        }
    }
}
