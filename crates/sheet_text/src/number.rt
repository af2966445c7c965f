// Numbers in their columns: right-justified decimal text, with a minus ahead of a negative one.
ghost use Rattle.std.specs.Prelude.{◌≡◌, ℕ, ◌+◌, ◌-◌, ◌^◌, ◌<◌, ◌≤◌, ◌++◌, length, drop, replicate, ℤ, decimal};
ghost use Rattle.std.specs.Prelude.{MatchOption, ◌≢◌, slice_index};
ghost use Rattle.std.specs.Int.Signed.{mag};
ghost use Rattle.std.specs.Fmt.{signed_decimal};
ghost use Rattle.std.specs.Str.Parse.{AllDigits, digits_value};
ghost use Rattle.sheet.specs.Columns.{column, held, judged};

use itoa::write_digits;
use sheet::faults::FieldFault;
use sheet::fields::Field;

// The number that decimal digits write, if there is nothing but digits. No type for a column of at
// most twelve bytes, which four private functions here ask for: it would be taken apart in each.
fn digits_value(digits: &[u8]) -> Option<u64>
    requires { length digits.now ≤ 12 }
    ensures { MatchOption result
        (AllDigits 10 digits.now → ⊥)
        (λ n. AllDigits 10 digits.now × (n ≡ digits_value 10 digits.now)) }
{
    let mut value = 0u64;
    for b in digits {
        let digit = char::from(*b).to_digit(10)?;
        value = value * 10 + u64::from(digit);
    }
    Some(value)
}

// The number whose decimal text the bytes are: digits without a leading zero.
fn read_digits(digits: &[u8]) -> Option<u64>
    requires { length digits.now ≤ 12 }
    ensures { MatchOption result
        ((n : ℕ) → n < 2 ^ 64 → digits.now ≢ decimal n)
        (λ n. (digits.now ≡ decimal n) × (n < 10 ^ 12)) }
{
    match digits {
        [] => None,
        [b'0', _, ..] => None,
        _ => digits_value(digits),
    }
}

// The bytes behind the blanks that stand in front.
pub fn unpadded(column: &[u8]) -> &[u8]
    ensures parts { column.now ≡
        replicate (length column.now - length result.now) 32 ++ result.now }
    ensures first { slice_index result.now 0 ≢ 32 }
{
    let mut rest = column;
    while let [b' ', tail @ ..] = rest {
        rest = tail;
    }
    rest
}

// The number whose text the bytes are.
fn read_number(text: &[u8]) -> Option<i64>
    requires { length text.now ≤ 12 }
    ensures { MatchOption result
        ((z : ℤ) → mag z < 2 ^ 63 → text.now ≢ signed_decimal z)
        (λ z. (text.now ≡ signed_decimal z) × (mag z < 2 ^ 63)) }
{
    if let [b'-', digits @ ..] = text {
        let n = read_digits(digits)?;
        // A plain test: with `filter` the case of no number was left open by the prover's search.
        if n == 0 {
            return None;
        }
        return Some(-(n as i64));
    }
    let n = read_digits(text)?;
    Some(n as i64)
}

// The number that a field of at most twelve columns holds, if it holds one.
pub(crate) fn read_column(column: &[u8]) -> Option<i64>
    requires { length column.now ≤ 12 }
    ensures { result ≡ held column.now }
{
    read_number(unpadded(column))
}

// A number as the one of a field, if the field may hold it.
pub(crate) fn judge(field: Field, number: Option<i64>) -> Result<i32, FieldFault>
    ensures { result ≡ judged field number }
{
    let number = number.ok_or(FieldFault::NoNumber(field))?;
    // Two comparisons: with `contains` of a range the prover's search stopped at its limits.
    if number < i64::from(field.least()) || i64::from(field.greatest()) < number {
        return Err(FieldFault::OutOfRange(field));
    }
    Ok(number as i32)
}

// Writes a number so that its text ends where the buffer ends, and says where it begins.
fn write_number(out: &mut [u8], number: i64) -> usize
    requires { length (signed_decimal number) ≤ length out.old }
    ensures first { result + length (signed_decimal number) ≡ length out.old }
    ensures written { drop result out.new ≡ signed_decimal number }
{
    let end = out.len();
    let first = write_digits(number.unsigned_abs(), out, end);
    if number >= 0 {
        return first;
    }
    out[first - 1] = b'-';
    first - 1
}

// Writes a number right-justified. Its digits go where they belong at once: with a text made apart
// and then copied, a small sheet took half as long again to write.
pub(crate) fn write_column(out: &mut [u8], number: i64)
    requires { length (signed_decimal number) ≤ length out.old }
    ensures { out.new ≡ column (length out.old) (signed_decimal number) }
{
    let first = write_number(out, number);
    out[..first].fill(b' ');
}
