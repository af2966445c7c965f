// Numbers of a text as the numbers of what they name.
ghost use Rattle.std.specs.Prelude.{◌≡◌, ◌≤◌, length};
ghost use Rattle.check_rules.specs.Coding.{below, watched_only};

use check_rules::effect::record_at;
use sheet::records::Signature;

// The number, if it is one of the first `bound` naturals.
pub(crate) fn below(number: i32, bound: u16) -> Option<u16>
    ensures { result ≡ below number bound }
{
    u16::try_from(number)
        .ok()
        .filter(|&natural| natural < bound)
}

// The same of an index. No generic one over `TryFrom`: that needs laws of its own for two lines.
pub(crate) fn index_below(number: i32, bound: u8) -> Option<u8>
    ensures { result ≡ below number bound }
{
    u8::try_from(below(number, u16::from(bound))?).ok()
}

// The watched library method that a number names.
pub(crate) fn watched_below(number: i32, library: &[Signature]) -> Option<u8>
    requires { length library.now ≤ 32 }
    ensures { result ≡ watched_only library.now (below number (length library.now)) }
{
    index_below(number, library.len() as u8).filter(|&index| {
        record_at(library, index, Signature::default()).watched
    })
}
