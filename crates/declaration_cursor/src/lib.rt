// A text together with the place of its next unread byte: thin steps over the functions of `declaration_bytes` and
// `declaration_scan`, and the next token by them.
#![tactic(auto)]

ghost use Rattle.std.specs.Prelude.{◌≡◌, ◌-◌, ◌≤◌, length, drop, unwrap_or};
ghost use Rattle.declaration_bytes.specs.Unread.{end_of_text, next_of};
ghost use Rattle.std.specs.Iterator.{at_most};
ghost use Rattle.declaration_scan.specs.Piece.{space_end, piece_from, piece_at};
ghost use Rattle.declaration_cursor.specs.Tokens.{Steps};

use declaration_scan::Piece;

// The text, and the place of its next unread byte.
#[derive(Clone, Copy)]
pub struct Cursor<'a> {
    text: &'a [u8],
    at: usize,
}

// A cursor that stands at a place of a text.
pub fn cursor_at<'a>(text: &'a [u8], at: usize) -> Cursor<'a>
    ensures { (result.text ≡ text.entry) × (result.at ≡ at) }
{
    Cursor { text, at }
}

// The next unread byte, or none at the end of the text.
pub fn next_byte<'a>(c: Cursor<'a>) -> Option<u8>
    ensures { unwrap_or result end_of_text ≡ next_of (drop c.entry.at c.entry.text.now) }
{
    declaration_bytes::next_unread(c.text, c.at)
}

// The cursor, moved on past the white space.
pub fn past_spaces<'a>(c: Cursor<'a>) -> Cursor<'a>
    requires { c.at ≤ length c.text.now }
    ensures { (result.text ≡ c.entry.text) × (result.at ≡ space_end c.entry.text.now c.entry.at) × (result.at ≤ length c.entry.text.now) }
{
    let at = declaration_bytes::skip_spaces(c.text, c.at);
    Cursor { text: c.text, at }
}

// The token at the cursor, which begins with the byte `first`; the white space before it begins at `start`.
pub fn piece_here<'a>(c: Cursor<'a>, start: usize, first: Option<u8>) -> Piece
    requires { (c.at ≤ length c.text.now) × (unwrap_or first end_of_text ≡ next_of (drop c.at c.text.now)) }
    ensures { (result ≡ piece_from c.entry.text.now start c.entry.at) × (result.to ≤ length c.entry.text.now) }
{
    declaration_scan::piece_from(c.text, start, c.at, first)
}

// The next token from a place on, and the white space before it.
pub fn piece_at(text: &[u8], at: usize) -> Piece
    requires { at ≤ length text.now }
    ensures { (result ≡ piece_at text.now at) × (result.to ≤ length text.now) }
{
    let c = past_spaces(cursor_at(text, at));
    piece_here(c, at, next_byte(c))
}

// A loop over the tokens from the cursor on: `for piece in cursor_at(text, at)`.
impl<'a> Iterator for Cursor<'a> {
    type Item = Piece;

    ghost next_gives = { λ s r t. Steps s r t };

    ghost remaining = { λ s. at_most (length s.text.now - s.at) };

    #[tactic(auto, using(declaration_scan::proofs::Pieces::piece_onward))]
    fn next(&mut self) -> Option<Piece> {
        if self.at >= self.text.len() {
            return None;
        }
        let piece = piece_at(self.text, self.at);
        self.at = piece.to;
        Some(piece)
    }
}
