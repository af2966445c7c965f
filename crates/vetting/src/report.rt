// The report on a text that is to be a sheet.
ghost use Rattle.std.specs.Prelude.{◌≡◌, IfOk, string_bytes, codes, MatchResult};
ghost use Rattle.sheet.specs.Reading.{reading};
ghost use Rattle.sheet.specs.Refusals.{sheet_refusal};
ghost use Rattle.sheet.specs.View.{empty_sheet};
ghost use Rattle.check_rules.specs.Check.{checked as check};
ghost use Rattle.check_rules.specs.CheckRefusals.{check_refusal};
ghost use Rattle.vetting.specs.Report.{refusal_line, opening, check_opening, CheckLeft, Begins};

use crate::check_explanation::CheckExplanation;
use crate::explanation::Explanation;
use crate::lines::line_at;
use crate::refusal_line::refusal_line;
use crate::summary::Summary;
use check_rules::faults::CheckFault;
use checking::checked::CheckedSheet;
use refusal::Refusal;
use sheet::faults::SheetFault;
use sheet_text::read_sheet::ReadSheet;
use std::alloc::{AllocError, Global};
use std::fmt;

// Reads a text into one sheet and checks it into the other, and says what was read, or what is
// wrong with which line or method.
// The first line of the report on a refused text is for programs, the rest is for people.
// The two sheets are two parameters: each is a value of its own, of use without a report and
// without the other.
pub fn report(
    heap: Global,
    sheet: &mut ReadSheet,
    checked: &mut CheckedSheet,
    text: &[u8],
) -> Result<String, AllocError>
    ensures begins { IfOk result (λ s. Begins (opening (reading text.now)) (string_bytes s)) }
    ensures after { MatchResult (reading text.now)
        (λ s. (sheet.new ≡ s) × CheckLeft s checked.new)
        (λ _. (sheet.new ≡ empty_sheet) × (checked.new ≡ checked.old)) }
{
    match sheet.read(text) {
        Ok(()) => judged(heap, sheet, checked),
        Err(fault) => refused(heap, text, fault),
    }
}

// The report on a sheet that reads.
fn judged(heap: Global, sheet: &ReadSheet, checked: &mut CheckedSheet) -> Result<String, AllocError>
    ensures begins { IfOk result (λ s. Begins (check_opening (check sheet.now)) (string_bytes s)) }
    ensures after { CheckLeft sheet.now checked.new }
{
    match checked.check(sheet) {
        Ok(()) => accepted(heap, sheet),
        Err(fault) => unchecked(heap, sheet, fault),
    }
}

// The rest of a report behind its opening.
fn opened<D: fmt::Display>(heap: Global, opening: &str, rest: &D) -> Result<String, AllocError>
    ensures { IfOk result (λ s. Begins opening.now (string_bytes s)) }
{
    let rest = format!(in heap; "{rest}")?;
    format!(in heap; "{opening}{rest}")
}

fn accepted(heap: Global, sheet: &ReadSheet) -> Result<String, AllocError>
    ensures { IfOk result (λ s. Begins (codes "The sheet passes") (string_bytes s)) }
{
    opened(heap, "The sheet passes", &Summary(sheet.contents()))
}

fn unchecked(heap: Global, sheet: &ReadSheet, fault: CheckFault) -> Result<String, AllocError>
    ensures { IfOk result (λ s. Begins (refusal_line (check_refusal fault)) (string_bytes s)) }
{
    let line = refusal_line(heap, Refusal::from(fault))?;
    let sheet = sheet.contents();
    opened(heap, line.as_str(), &CheckExplanation { sheet, fault })
}

fn refused(heap: Global, text: &[u8], fault: SheetFault) -> Result<String, AllocError>
    ensures { IfOk result (λ s. Begins (refusal_line (sheet_refusal fault)) (string_bytes s)) }
{
    let opening = refusal_line(heap, Refusal::from(fault))?;
    match fault {
        SheetFault::Line(number, fault) => {
            let line = line_at(text, number);
            opened(
                heap,
                opening.as_str(),
                &Explanation {
                    line,
                    number,
                    fault,
                },
            )
        }
        // Reading never gives this, but one enum serves reading and writing.
        SheetFault::ShortBuffer => opened(
            heap,
            opening.as_str(),
            &"The buffer is shorter than the text of the sheet.\n",
        ),
    }
}
