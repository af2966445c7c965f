// Bytes in quotes, for people.
use crate::words::Amount;
use std::fmt;

// How many bytes are shown; a right line has fewer.
const SHOWN: usize = 60;

// Shown with an escape for each byte that is not printable ASCII, and cut if there are many.
#[derive(Drop)]
pub(crate) struct Quoted<'a>(pub(crate) &'a [u8]);

impl fmt::Display for Quoted<'_> {
    fn fmt<W: fmt::Write>(&self, f: &mut fmt::Formatter<W>) -> fmt::Result {
        let bytes = self.0;
        if bytes.len() <= SHOWN {
            let text = bytes.escape_ascii();
            return write!(f, "\"{text}\"");
        }
        let (front, back) = bytes.split_at(SHOWN);
        let text = front.escape_ascii();
        let more = Amount(back.len(), "more byte");
        write!(f, "\"{text}\" and {more}")
    }
}
