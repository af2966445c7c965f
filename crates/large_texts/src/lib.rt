// Texts of many lines, for tests and measurements. Every field holds the number of its range that
// takes the most columns.
#![tactic(auto)]

ghost use Rattle.std.specs.Prelude.{◌≡◌, ◌++◌, IfOk, OnOk};
ghost use Rattle.std.specs.List.{repeat};
ghost use Rattle.large_texts.specs.Texts.{own_method, largest_text};

use std::alloc::{AllocError, Global};

pub const LIBRARY_METHOD: &[u8] = b"L     6     1     1\n";

pub const OWN_METHOD: &[u8] = b"M     6     1   250    64\n";

pub const INSTRUCTION: &[u8] = b"I    18 -2147483648\n";

pub const HANDLER: &[u8] = b"X  2048  2048     2  2048  2048\n";

// Adds some lines to a text, several times.
fn add_lines(text: &mut Vec<u8>, lines: &[u8], count: usize) -> Result<(), AllocError>
    ensures { OnOk result (text.new.items ≡ text.old.items ++ repeat count lines.now) }
{
    let heap = *text.allocator();
    let more = lines.repeat(heap, count)?;
    text.extend_from_slice(more.as_slice())
}

// One method with so many lines behind it.
pub fn one_method(heap: Global, line: &[u8], count: usize) -> Result<Vec<u8>, AllocError>
    ensures { IfOk result (λ t. t.items ≡ own_method ++ repeat count line.now) }
{
    let mut text = Vec::new(heap);
    text.extend_from_slice(OWN_METHOD)?;
    add_lines(&mut text, line, count)?;
    Ok(text)
}

// A sheet with as many of everything as there may be, spread evenly over its methods.
pub fn largest(heap: Global) -> Result<Vec<u8>, AllocError>
    ensures { IfOk result (λ t. t.items ≡ largest_text) }
{
    let mut method = one_method(heap, INSTRUCTION, 128)?;
    add_lines(&mut method, HANDLER, 16)?;
    let mut text = Vec::new(heap);
    add_lines(&mut text, LIBRARY_METHOD, 32)?;
    add_lines(&mut text, method.as_slice(), 16)?;
    Ok(text)
}
