// The token that begins at a place of a text: its kind, and where it ends.
#![tactic(auto)]

ghost use Rattle.std.specs.Prelude.{◌≡◌, false, ◌+◌, ◌≤◌, length, drop, unwrap_or};
ghost use Rattle.name.specs.Word.{word_byte};
ghost use Rattle.declaration_bytes.specs.Unread.{end_of_text, next_of, run_of};
ghost use Rattle.declaration_scan.specs.Kind.{sign_kind};
ghost use Rattle.declaration_scan.specs.Piece.{word_end, piece_from};

use declaration_bytes::skip_word;

// The kinds of tokens: a byte that is none, or the end of the text; a word, and the words `EMPTY` and `#PCDATA`;
// ( ) , | > and the marks ? + *. A piece does not say of a word whether it is `EMPTY` or `#PCDATA`.
pub const OTHER: u8 = 0;

pub const WORD: u8 = 1;

pub const EMPTY: u8 = 2;

pub const PCDATA: u8 = 3;

pub const LPAR: u8 = 4;

pub const RPAR: u8 = 5;

pub const COMMA: u8 = 6;

pub const BAR: u8 = 7;

pub const END: u8 = 8;

pub const QUESTION: u8 = 9;

pub const PLUS: u8 = 10;

pub const STAR: u8 = 11;

// A token of the text: whether white space stands before it, its kind, and the places where it begins and ends.
#[derive(Clone, Copy)]
pub struct Piece {
    pub gap: bool,
    pub kind: u8,
    pub from: usize,
    pub to: usize,
}

// The kind of a token that is no word, by its first byte.
#[tactic(auto, unfolding(crate::specs::Kind::sign_kind))]
fn sign_kind(first: Option<u8>) -> u8
    ensures { result ≡ sign_kind (unwrap_or first end_of_text) }
{
    match first {
        Some(b'(') => LPAR,
        Some(b')') => RPAR,
        Some(b',') => COMMA,
        Some(b'|') => BAR,
        Some(b'>') => END,
        Some(b'?') => QUESTION,
        Some(b'+') => PLUS,
        Some(b'*') => STAR,
        _ => OTHER,
    }
}

// Where the run of the bytes of words at a place ends. None begins with a sign, so the table of classes is made for the
// others alone.
#[tactic(auto, using(crate::proofs::Pieces::sign_run))]
fn run_end(text: &[u8], from: usize, sign: u8) -> usize
    requires { (from ≤ length text.now) × (sign ≡ sign_kind (next_of (drop from text.now))) }
    ensures { (result ≡ from + run_of word_byte (drop from text.now)) × (result ≤ length text.now) }
{
    if sign != OTHER {
        return from;
    }
    skip_word(text, from)
}

// Where the token at a place ends that is no word.
#[tactic(auto, using(crate::proofs::Pieces::end_sign, crate::proofs::Pieces::end_over))]
fn sign_end(text: &[u8], from: usize) -> usize
    requires { (from ≤ length text.now) × (word_byte (next_of (drop from text.now)) ≡ false) }
    ensures { (result ≡ word_end text.now from) × (result ≤ length text.now) }
{
    if from < text.len() { from + 1 } else { from }
}

// The token that begins at `from` with the byte `first`, where the white space before it begins at `at`.
pub fn piece_from(text: &[u8], at: usize, from: usize, first: Option<u8>) -> Piece
    requires { (from ≤ length text.now) × (unwrap_or first end_of_text ≡ next_of (drop from text.now)) }
    ensures { (result ≡ piece_from text.now at from) × (result.to ≤ length text.now) }
{
    let gap = at < from;
    let sign = sign_kind(first);
    let end = run_end(text, from, sign);
    if from < end {
        return Piece {
            gap,
            kind: WORD,
            from,
            to: end,
        };
    }
    let to = sign_end(text, from);
    Piece {
        gap,
        kind: sign,
        from,
        to,
    }
}
