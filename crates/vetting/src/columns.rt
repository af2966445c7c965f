// Where the fields of a line stand. Columns are counted from 1, and the letter is in column 1.
ghost use Rattle.std.specs.Prelude.{◌≡◌, ◌+◌, ◌-◌, ◌≤◌, map, length, take, drop};
ghost use Rattle.sheet.specs.Fields.{width_of, fields_of};
ghost use Rattle.vetting.specs.Columns.{first_column, starts};

use sheet::fields::{Field, Letter};

// The first column of a field. A field has the same columns on every line that has it.
pub(crate) fn first_column(field: Field) -> usize
    ensures value { result ≡ first_column field }
    ensures placed { (l : Letter) → map first_column (fields_of l) ≡ starts 2 (fields_of l) }
{
    match field {
        Field::Arguments | Field::Op | Field::TryBegin => 2,
        Field::Gives | Field::Operand | Field::TryEnd => 8,
        Field::Watched | Field::Locals | Field::Kind => 14,
        Field::StackLimit | Field::CatchBegin => 20,
        Field::CatchEnd => 26,
    }
}

// The last column of a field.
pub(crate) fn last_column(field: Field) -> usize
    ensures { result + 1 ≡ first_column field + width_of field }
{
    first_column(field) + field.width() - 1
}

// The bytes of a field on a line, or none if the line ends ahead of the field's last column.
pub(crate) fn field_bytes(line: &[u8], field: Field) -> &[u8]
    ensures { first_column field + width_of field ≤ length line.now + 1
        → result.now ≡ take (width_of field) (drop (first_column field - 1) line.now) }
{
    let begin = first_column(field) - 1;
    line.get(begin..last_column(field)).unwrap_or(&[])
}
