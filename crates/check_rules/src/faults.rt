ghost use Rattle.std.specs.Prelude.{◌≡◌};
ghost use Rattle.check_rules.specs.CheckRefusals.{check_refusal, method_refusal};

use refusal::Refusal;

// Why a method is refused, and at which of its locations or handlers. It has no Display: what
// people are told of it quotes the text, which the crate `vetting` has.
#[derive(Clone, Copy, Debug, PartialEq, Eq)]
pub enum MethodFault {
    NoInstruction,
    TooManyCells,
    Operand(usize),
    Handler(usize),
    Depth(usize),
}

// Why a sheet is refused: it has no own method, or the lowest of its methods that is refused. No
// Display, as above.
#[derive(Clone, Copy, Debug, PartialEq, Eq)]
pub enum CheckFault {
    NoMethod,
    Method(usize, MethodFault),
}

// The number of the refusal and its places: the method, and a location, a handler or 0.
impl From<CheckFault> for Refusal {
    ghost from_gives = { λ f r. r ≡ check_refusal f };

    fn from(fault: CheckFault) -> Refusal {
        match fault {
            CheckFault::NoMethod => Refusal {
                number: 6,
                first: 0,
                second: 0,
            },
            CheckFault::Method(method, fault) => fault.refusal(method),
        }
    }
}

impl MethodFault {
    // The number of the refusal and its places, in the method of this number. No `From`, since a fault does not know its method.
    pub fn refusal(self, method: usize) -> Refusal
        ensures { result ≡ method_refusal method self }
    {
        let (number, second) = match self {
            MethodFault::NoInstruction => (7, 0),
            MethodFault::TooManyCells => (8, 0),
            MethodFault::Operand(location) => (9, location),
            MethodFault::Handler(handler) => (10, handler),
            MethodFault::Depth(location) => (11, location),
        };
        Refusal {
            number,
            first: method,
            second,
        }
    }
}
