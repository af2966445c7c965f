// A buffer that text is put into from its start on, one piece behind the other.
ghost use Rattle.std.specs.Prelude.{◌≡◌, ℕ, ◌<◌, ◌≤◌, List, [], ◌∷◌, ◌++◌, length};
ghost use Rattle.std.specs.List.{flat_map};
ghost use Rattle.std.specs.Fmt.{signed_decimal};
ghost use Rattle.sheet.specs.Columns.{column};
ghost use Rattle.sheet.specs.Fields.{letter_byte};
ghost use Rattle.sheet.specs.Text.{count};
ghost use Rattle.sheet_text.specs.Output.{written, left, Fits, Put};

use crate::number::write_column;
use sheet::fields::Letter;

// The whole buffer, and where its next byte goes. Not the rest alone: contracts speak of what was
// put so far, which stands ahead of that place.
#[derive(Drop)]
pub(crate) struct Output<'a> {
    bytes: &'a mut [u8],
    at: usize,
}

// What is put as one piece of text.
pub(crate) trait Piece {
    ghost text: { Self → List ℕ };

    // Puts the piece behind what was put so far.
    fn put(&self, out: &mut Output<'_>)
        requires { Fits (text self.now) out.old }
        ensures { Put (text self.now) out.old out.new };
}

impl<'a> Output<'a> {
    pub(crate) fn new(bytes: &'a mut [u8]) -> Output<'a>
        ensures same_buffer { result.bytes.ghost_name ≡ bytes.entry.ghost_name }
        ensures empty { written result ≡ [] }
        ensures all_left { left result ≡ bytes.old }
    {
        Output { bytes, at: 0 }
    }

    // Puts one byte.
    pub(crate) fn byte(&mut self, byte: u8)
        requires { Fits (byte ∷ []) self.old }
        ensures { Put (byte ∷ []) self.old self.new }
    {
        self.bytes[self.at] = byte;
        self.at += 1;
    }

    // Puts a number into so many columns, right-justified. Inlined, since a call for each field
    // shows in the time that writing takes.
    #[inline]
    fn column(&mut self, width: usize, number: i64)
        requires some { 0 < width }
        requires fits { length (signed_decimal number) ≤ width }
        requires room { width ≤ length (left self.old) }
        ensures { Put (column width (signed_decimal number)) self.old self.new }
    {
        let end = self.at + width;
        write_column(&mut self.bytes[self.at..end], number);
        self.at = end;
    }

    // Puts pieces one behind the other.
    pub(crate) fn all<T: Piece>(&mut self, pieces: &[T])
        requires { Fits (flat_map T.Piece.text pieces.now) self.old }
        ensures { Put (flat_map T.Piece.text pieces.now) self.old self.new }
    {
        for piece in pieces {
            piece.put(self);
        }
    }

    // Puts a line whose fields have six columns each.
    pub(crate) fn line(&mut self, letter: Letter, fields: &[u16])
        requires { Fits (letter_byte letter ∷ (flat_map count fields.now ++ 10 ∷ [])) self.old }
        ensures { Put (letter_byte letter ∷ (flat_map count fields.now ++ 10 ∷ []))
            self.old self.new }
    {
        self.byte(u8::from(letter));
        self.all(fields);
        self.byte(b'\n');
    }
}

// A number in a field of six columns.
impl Piece for u16 {
    ghost text = { count };

    fn put(&self, out: &mut Output<'_>) {
        out.column(6, i64::from(*self));
    }
}

// An operand in its twelve columns.
impl Piece for i32 {
    ghost text = { λ z. column 12 (signed_decimal z) };

    fn put(&self, out: &mut Output<'_>) {
        out.column(12, i64::from(*self));
    }
}
