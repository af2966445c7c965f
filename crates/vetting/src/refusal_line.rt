// The refusal of a text, for programs to read.
ghost use Rattle.std.specs.Prelude.{◌≡◌, IfOk, string_bytes};
ghost use Rattle.vetting.specs.Report.{refusal_line};

use refusal::Refusal;
use std::alloc::{AllocError, Global};

// The letter R, and the number and the places of a refusal in six columns each.
pub(crate) fn refusal_line(heap: Global, refusal: Refusal) -> Result<String, AllocError>
    ensures { IfOk result (λ s. string_bytes s ≡ refusal_line refusal) }
{
    let Refusal {
        number,
        first,
        second,
    } = refusal;
    format!(in heap; "R{number:>6}{first:>6}{second:>6}\n")
}
