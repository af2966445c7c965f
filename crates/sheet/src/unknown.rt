use std::error::Error;
use std::fmt;

// A number that no op, or no kind of handler, has. The parties know no sheet, so their kinds of questions have an error of their own.
#[derive(Clone, Copy, Debug, PartialEq, Eq)]
pub struct UnknownNumber {
    pub number: u8,
}

impl fmt::Display for UnknownNumber {
    ghost use Rattle.std.specs.Prelude.{Some, ◌++◌, codes, decimal};

    ghost output = { λ u. Some (codes "nothing has the number " ++ decimal u.number) };

    fn fmt<W: fmt::Write>(&self, f: &mut fmt::Formatter<W>) -> fmt::Result {
        let number = self.number;
        write!(f, "nothing has the number {number}")
    }
}

impl Error for UnknownNumber {}
