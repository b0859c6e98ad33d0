// The reader's moves: line after line, and field after field.
ghost use Rattle.std.specs.Prelude.{◌≡◌, ◌+◌, ◌-◌, ◌<◌, ◌≤◌, true, false, cond, ◌&&◌, [], ◌∷◌, length, IfSome, MatchBool, MatchOption, nat_lt};
ghost use Rattle.std.specs.Str.{bytes_eq};
ghost use Rattle.std.specs.Option.{option_map};
ghost use Rattle.sheets.specs.Lines.{upto, lines};
ghost use Rattle.sheets.specs.Reading.{text_of, place_of, bytes_of, here, coming, left_of, Fresh, Still, AtStart, Pair, texts, Moved, Taken};
ghost use Rattle.sheets.specs.Rows.{two_fields, one_field};

use super::{Field, Number, Piece, Reader, Word};

// How many bytes stand before the first `stop`.
fn before_stop(bytes: &[u8], stop: u8) -> usize
    ensures value { result ≡ upto stop bytes.now }
    ensures bound { result ≤ length bytes.now }
{
    bytes.iter().position(|b| *b == stop).unwrap_or(bytes.len())
}

// A number begins with a digit.
fn told_apart<'a>(bytes: &'a [u8], place: usize) -> Field<'a>
    ensures bytes { text_of result ≡ bytes.now }
    ensures place { place_of result ≡ place }
{
    let piece = Piece { bytes, place };
    match bytes {
        [b'0'..=b'9', ..] => Field::Number(Number { piece }),
        _ => Field::Word(Word { piece }),
    }
}

impl Field<'_> {
    // The first byte's place in the line.
    pub(crate) fn place(self) -> usize
        ensures { result ≡ place_of self.entry }
    {
        match self {
            Field::Number(number) => number.piece.place,
            Field::Word(word) => word.piece.place,
        }
    }
}

impl<'a> Reader<'a> {
    // Before the first line.
    pub fn over(sheet: &'a [u8]) -> Reader<'a>
        ensures { (bytes_of result ≡ sheet.now) × (coming result ≡ lines sheet.now) }
    {
        Reader {
            sheet,
            line: 0,
            at: None,
            end: 0,
            next: 0,
        }
    }

    // Steps into the next line, if there is one.
    pub fn step(&mut self) -> bool
        ensures { MatchBool result (Moved self.old self.new) (coming self.old ≡ []) }
    {
        let sheet = self.sheet;
        let from = self.next;
        if from == sheet.len() {
            return false;
        }
        let end = from + before_stop(&sheet[from..], b'\n');
        let next = if end < sheet.len() { end + 1 } else { end };
        self.line = from;
        self.at = Some(from);
        self.end = end;
        self.next = next;
        true
    }

    // The next field of the line.
    pub fn field(&mut self) -> Option<Field<'a>>
        ensures { MatchOption result ((left_of self.old ≡ []) × (self.new ≡ self.old)) (λ f. Taken f self.old self.new) }
    {
        let from = self.at?;
        let sheet = self.sheet;
        let end = self.end;
        let to = from + before_stop(&sheet[from..end], b' ');
        self.at = if to < end { Some(to + 1) } else { None };
        Some(told_apart(&sheet[from..to], from - self.line))
    }

    // Whether a byte 10 ended the line.
    pub fn ended(&self) -> bool
        ensures { result ≡ nat_lt self.now.end (length (bytes_of self.now)) }
    {
        self.end < self.sheet.len()
    }

    // Whether the line ended and its text is this.
    pub fn is_line(&self, text: &[u8]) -> bool
        ensures { result ≡ ((here self.now).ended && bytes_eq (here self.now).text text.now) }
    {
        self.ended() && &self.sheet[self.line..self.end] == text
    }

    // The two fields of a line that ended and has no more.
    // Not one function with `single`: no proof is generated for a result `Option<[Field<'a>; N]>`, whose elements hold references.
    pub(crate) fn pair(&mut self) -> Option<(Field<'a>, Field<'a>)>
        requires { Fresh self.old }
        ensures fields { option_map texts result ≡ two_fields (here self.old) }
        ensures told { IfSome result Pair }
        ensures still { Still self.old self.new }
    {
        if !self.ended() {
            return None;
        }
        let first = self.field()?;
        let second = self.field()?;
        if self.field().is_some() {
            return None;
        }
        Some((first, second))
    }

    // The field of a line that ended and has just one.
    pub(crate) fn single(&mut self) -> Option<Field<'a>>
        requires { Fresh self.old }
        ensures fields { option_map text_of result ≡ one_field (here self.old) }
        ensures told { IfSome result AtStart }
        ensures still { Still self.old self.new }
    {
        if !self.ended() {
            return None;
        }
        let field = self.field()?;
        if self.field().is_some() {
            return None;
        }
        Some(field)
    }
}
