ghost use Rattle.std.specs.Prelude.{◌≡◌, Some};
ghost use Rattle.policies.specs.Chart.{arrow_refusal, arrow_words};
ghost use Rattle.policies.specs.declared.fault.ArrowFault.TheVariants.{NoSuchKind};

use interface::answers::UnknownKind;
use refusal::Refusal;
use std::error::Error;
use std::fmt;

// Why an arrow is not drawn.
#[derive(Clone, Copy, Debug, PartialEq, Eq)]
pub enum ArrowFault {
    // It would leave or reach a box above 15.
    NoSuchBox,
    // A kind of question has a number from 2 to 4.
    NoSuchKind,
    // The method is above 31.
    NoSuchMethod,
    // An arrow leaves that box on that kind and method already, wherever it leads.
    AlreadyThere,
}

impl From<UnknownKind> for ArrowFault {
    ghost from_gives = { λ _ fault. fault ≡ NoSuchKind };

    fn from(_: UnknownKind) -> ArrowFault {
        ArrowFault::NoSuchKind
    }
}

impl From<ArrowFault> for Refusal {
    ghost from_gives = { λ fault refusal. refusal ≡ arrow_refusal fault };

    fn from(_: ArrowFault) -> Refusal {
        Refusal {
            number: 17,
            first: 0,
            second: 0,
        }
    }
}

impl fmt::Display for ArrowFault {
    ghost output = { λ fault. Some (arrow_words fault) };

    fn fmt<W: fmt::Write>(&self, f: &mut fmt::Formatter<W>) -> fmt::Result {
        f.write_str(match self {
            ArrowFault::NoSuchBox => "the boxes of a chart are 0 to 15",
            ArrowFault::NoSuchKind => "the kinds of questions are 2 to 4",
            ArrowFault::NoSuchMethod => "the methods of a chart are 0 to 31",
            ArrowFault::AlreadyThere => "an arrow leaves that box on that kind and method already",
        })
    }
}

impl Error for ArrowFault {}
