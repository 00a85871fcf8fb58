// Reading one declaration.
#![tactic(auto)]

ghost use Rattle.std.specs.Prelude.{◌≡◌, ◌≤◌, length};
ghost use Rattle.nameset.specs.Places.{places};
ghost use Rattle.book.specs.Book.{names_in};
ghost use Rattle.book.specs.Access.{LaidOut};
ghost use Rattle.declaration_walk.specs.Gather.{mixed_answer, content_answer, tokens_answer};
ghost use Rattle.declaration_rows.specs.Place.{tokens_at, part_of, text_kind};
ghost use Rattle.declaration_reading.specs.Read.{ReadsDeclaration};

use book::Layout;
use declaration_record::read_factors;
use declaration_scan::{BAR, PCDATA, Piece, WORD};
use declaration_spelling::Declared;
use model::{Chain, Model};
use refusal::Refusal;

// How many bytes `<!ELEMENT` has.
const OPENING: usize = 9;

// Whether a piece is `#PCDATA`.
fn is_text(text: &[u8], piece: Piece) -> bool
    requires { (piece.from ≤ piece.to) × (piece.to ≤ length text.now) }
    ensures { result ≡ text_kind piece.kind (part_of text.now piece.from piece.to) }
{
    if piece.kind != WORD {
        return false;
    }
    declaration_form::word_kind(text, piece.from, piece.to) == PCDATA
}

// The model from the place behind `(#PCDATA` on: with names, or without.
fn read_mixed(
    bytes: &[u8],
    layout: Layout,
    text: &[u8],
    at: usize,
    parent: usize,
) -> Result<Declared, Refusal>
    requires { LaidOut bytes.now layout × (at ≤ length text.now) }
    ensures { result ≡ mixed_answer places (names_in bytes.now) parent (tokens_at text.now at) }
{
    let piece = declaration_cursor::piece_at(text, at);
    if piece.kind == BAR {
        return read_factors(bytes, layout, text, at, parent, 1);
    }
    let model = Model {
        chain: Chain::empty(),
        text: 1,
    };
    Ok(Declared { parent, model })
}

// The model from a place on: `EMPTY`, with text, or factors without.
fn read_model(
    bytes: &[u8],
    layout: Layout,
    text: &[u8],
    at: usize,
    parent: usize,
) -> Result<Declared, Refusal>
    requires { LaidOut bytes.now layout × (at ≤ length text.now) }
    ensures { result ≡ content_answer places (names_in bytes.now) parent (tokens_at text.now at) }
{
    let piece = declaration_cursor::piece_at(text, at);
    if piece.kind == WORD {
        let model = Model::empty();
        return Ok(Declared { parent, model });
    }
    let first = declaration_cursor::piece_at(text, piece.to);
    if is_text(text, first) {
        return read_mixed(bytes, layout, text, first.to, parent);
    }
    read_factors(bytes, layout, text, at, parent, 0)
}

// The parent and the model from a place on. In a text that has the form of a declaration a word stands there; without
// one the answer is 13.
fn read_tokens(bytes: &[u8], layout: Layout, text: &[u8], at: usize) -> Result<Declared, Refusal>
    requires { LaidOut bytes.now layout × (at ≤ length text.now) }
    ensures { result ≡ tokens_answer places (names_in bytes.now) (tokens_at text.now at) }
{
    let piece = declaration_cursor::piece_at(text, at);
    if piece.kind != WORD {
        return Err(Refusal::NotADeclaration);
    }
    match book_access::find_name(bytes, layout, book_bytes::part(text, piece.from, piece.to)) {
        Some(parent) => read_model(bytes, layout, text, piece.to, parent),
        None => Err(Refusal::UnknownName),
    }
}

// The call: any bytes as the book, any text.
pub fn read_declaration(bytes: &[u8], text: &[u8]) -> Result<Declared, Refusal>
    ensures { ReadsDeclaration bytes.now text.now result }
{
    let layout = book_reading::take_book(bytes)?;
    if !declaration_form::has_form(text) {
        return Err(Refusal::NotADeclaration);
    }
    read_tokens(bytes, layout, text, OPENING)
}
