// The lines of a text: each runs to a line feed, which belongs to it, or to the end.
ghost use Rattle.std.specs.Prelude.{◌≡◌};
ghost use Rattle.std.specs.Iterator.{YieldsFirstRef, item_count};
ghost use Rattle.sheet.specs.Reading.{line_length, lines};

use std::marker::Model;

// How many bytes the first line has, with its line feed if it has one.
pub fn line_length(text: &[u8]) -> usize
    ensures { result ≡ line_length text.now }
{
    match text.iter().position(|b| *b == b'\n') {
        Some(at) => at + 1,
        None => text.len(),
    }
}

// The lines that are still to come. Contracts see the list of them.
// An iterator of its own, which `vet` looks lines up by as well: `split_inclusive` of std was tried for reading, and the proof
// did not close at the closure.
#[derive(Drop)]
pub struct Lines<'a> {
    rest: &'a [u8],
}

impl<'a> Model for Lines<'a> {
    ghost use Rattle.std.specs.Prelude.{ℕ, List};
    ghost use Rattle.sheet.specs.Reading.{lines};

    ghost Value = { List (List ℕ) };

    ghost view = { λ l. lines l.rest.now };
}

impl<'a> Lines<'a> {
    // The lines of a text, from the first on.
    pub fn of(text: &'a [u8]) -> Lines<'a>
        ensures { result ≡ lines text.now }
    {
        Lines { rest: text }
    }
}

impl<'a> Iterator for Lines<'a> {
    type Item = &'a [u8];

    ghost next_gives = { YieldsFirstRef (λ l. l) };

    ghost remaining = { item_count (λ l. l) };

    fn next(&mut self) -> Option<&'a [u8]> {
        if self.rest.is_empty() {
            return None;
        }
        let (line, rest) = self.rest.split_at(line_length(self.rest));
        self.rest = rest;
        Some(line)
    }
}
