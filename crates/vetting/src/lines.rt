// A line of a text by its number.
ghost use Rattle.std.specs.Prelude.{◌≡◌, [], slice_index_or};
ghost use Rattle.sheet.specs.Reading.{lines};

use sheet_text::lines::Lines;

// The line of this number, counted from 0, with its line feed if it has one; no bytes if there is
// no such line.
pub(crate) fn line_at(text: &[u8], number: usize) -> &[u8]
    ensures { result.now ≡ slice_index_or (lines text.now) number [] }
{
    Lines::of(text).nth(number).unwrap_or(&[])
}
