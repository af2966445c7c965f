// A table of cases for a test program. A case is a text, the byte '%', a comment and a line feed.
#![tactic(auto)]

ghost use Rattle.std.specs.Prelude.{◌≡◌, length, Contains, IfNone, IfSome};
ghost use Rattle.cases.specs.Parts.{IsSplit};

use refusal::Refusal;
use sheet_store::stored::StoredSheet;
use std::io;
use std::io::Read;

// More bytes than any table has.
const MOST_BYTES: u64 = 1_000_000;

#[derive(Drop)]
pub struct Case<'a> {
    pub text: &'a [u8],
    pub comment: &'a [u8],
}

// The cases of a table, from the first on. It ends where no whole case is left.
#[derive(Drop)]
pub struct Cases<'a>(pub &'a [u8]);

// What stands ahead of the first such byte, and what stands behind it. std has this for text only.
fn split_once(bytes: &[u8], byte: u8) -> Option<(&[u8], &[u8])>
    ensures found { IfSome result (λ p. IsSplit bytes.now byte p.0.now p.1.now) }
    ensures absent { IfNone result (Contains bytes.now byte → ⊥) }
{
    let at = bytes.iter().position(|b| *b == byte)?;
    Some((&bytes[..at], &bytes[at + 1..]))
}

impl<'a> Iterator for Cases<'a> {
    ghost use Rattle.std.specs.Prelude.{MatchOption};
    ghost use Rattle.std.specs.Iterator.{at_most};
    ghost use Rattle.cases.specs.Parts.{IsFirstCase, HasNoCase};

    type Item = Case<'a>;

    ghost next_gives = { λ s r t. MatchOption r
        ((t ≡ s) × HasNoCase s.0.now)
        (λ c. IsFirstCase s.0.now c.text.now c.comment.now t.0.now) };

    ghost remaining = { λ s. at_most (length s.0.now) };

    fn next(&mut self) -> Option<Case<'a>> {
        let (text, rest) = split_once(self.0, b'%')?;
        let (comment, behind) = split_once(rest, b'\n')?;
        self.0 = behind;
        Some(Case { text, comment })
    }
}

// The table that stands on standard input, cut at the most. No clause says which bytes come from
// there, or how many.
pub fn read_table<R: Input + AllocGlobal>(rt: &R) -> io::Result<Vec<u8>> {
    let mut table = Vec::new(rt.alloc());
    rt.reader().take(MOST_BYTES).read_to_end(&mut table)?;
    Ok(table)
}

// Prints a line for a case, so that no clause says which: its number, the counts of the sheet that
// came of it or its refusal, and its comment.
pub fn print_answer<I: Copy, H: Copy>(
    rt: &impl Print,
    number: usize,
    case: &Case,
    answer: Result<&StoredSheet<I, H>, Refusal>,
) -> io::Result<()> {
    let comment = case.comment.escape_ascii();
    match answer {
        Ok(sheet) => {
            let library = sheet.library().len();
            let methods = sheet.method_count();
            let instructions = sheet.instruction_count();
            let handlers = sheet.handler_count();
            println!(rt; "{number} ok {library} {methods} {instructions} {handlers}: {comment}")
        }
        Err(refusal) => println!(rt; "{number} refused {refusal}: {comment}"),
    }
}
