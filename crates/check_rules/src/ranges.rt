ghost use Rattle.std.specs.Prelude.{◌≡◌};
ghost use Rattle.check_rules.specs.Ranges.{holds, apart, handles};

use sheet::location::PlainLocation;
use sheet::records::Handler;

// Whether a range holds something and ends within a method of so many instructions. Not a struct
// `Range`: a handler has its ranges as four fields, in the text and in the laws.
fn holds_within(begin: PlainLocation, end: PlainLocation, count: u16) -> bool
    ensures { result ≡ holds count begin.number end.number }
{
    begin.number() < end.number() && end.number() <= count
}

// Whether the two ranges of a handler have no location in common.
fn are_apart(handler: Handler<PlainLocation>) -> bool
    ensures { result ≡ apart handler }
{
    handler.try_end.number() <= handler.catch_begin.number()
        || handler.catch_end.number() <= handler.try_begin.number()
}

// Whether a handler suits a method with this stack limit and so many instructions. It takes these two
// numbers and no `Around`: nothing else of a method matters to a handler.
pub fn handler_suits(handler: Handler<PlainLocation>, stack_limit: u8, count: u16) -> bool
    ensures { result ≡ handles stack_limit count handler }
{
    holds_within(handler.try_begin, handler.try_end, count)
        && holds_within(handler.catch_begin, handler.catch_end, count)
        && handler.catch_begin.number() > 0
        && are_apart(handler)
        && stack_limit > 0
}
