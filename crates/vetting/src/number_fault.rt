// Why the bytes of a field write no number.
use crate::quoted::Quoted;
use sheet_text::number::unpadded;
use std::fmt;

#[derive(Clone, Copy, Debug, PartialEq, Eq)]
pub(crate) enum NumberFault {
    Blank,
    BlankAtEnd,
    PlusSign,
    NoDigit,
    NotADigit(u8),
    MinusZero,
    LeadingZero,
}

impl fmt::Display for NumberFault {
    fn fmt<W: fmt::Write>(&self, f: &mut fmt::Formatter<W>) -> fmt::Result {
        match *self {
            NumberFault::Blank => f.write_str("it is blank"),
            NumberFault::BlankAtEnd => f.write_str("its last column is blank"),
            NumberFault::PlusSign => f.write_str("a plus sign is not allowed"),
            NumberFault::NoDigit => f.write_str("it has no digit"),
            NumberFault::NotADigit(byte) => {
                let bytes = [byte];
                let shown = Quoted(&bytes);
                write!(f, "it has {shown} where a digit belongs")
            }
            NumberFault::MinusZero => f.write_str("zero has no minus sign"),
            NumberFault::LeadingZero => f.write_str("a leading zero is not allowed"),
        }
    }
}

// What is wrong with the digits of a number, if anything is.
fn digits_fault(digits: &[u8]) -> Option<NumberFault> {
    if let Some(byte) = digits.iter().find(|b| !b.is_ascii_digit()) {
        return Some(NumberFault::NotADigit(*byte));
    }
    match digits {
        [] => Some(NumberFault::NoDigit),
        [b'0', _, ..] => Some(NumberFault::LeadingZero),
        _ => None,
    }
}

// What keeps the bytes of a field from being a number, if anything does. The reader says only
// whether they are one; people want to know why not.
pub(crate) fn number_fault(field: &[u8]) -> Option<NumberFault> {
    match unpadded(field) {
        [] => Some(NumberFault::Blank),
        [.., b' '] => Some(NumberFault::BlankAtEnd),
        [b'+', ..] => Some(NumberFault::PlusSign),
        [b'-', b'0'] => Some(NumberFault::MinusZero),
        [b'-', digits @ ..] => digits_fault(digits),
        digits => digits_fault(digits),
    }
}
