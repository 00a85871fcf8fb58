// Names of a text by the book.
ghost use Rattle.std.specs.Prelude.{◌≡◌, ◌≤◌, length};
ghost use Rattle.nameset.specs.Places.{places};
ghost use Rattle.book.specs.Book.{names_in};
ghost use Rattle.book.specs.Access.{LaidOut};
ghost use Rattle.declaration_walk.specs.Gather.{known_tokens};
ghost use Rattle.declaration_rows.specs.Place.{tokens_at, part_of, number_at};

use book::Layout;
use declaration_scan::{Piece, WORD};
use nameset::PLACES;

// The number of a word by the book, PLACES where it is no name of it; 0 for a piece that is no word.
pub fn number_at(bytes: &[u8], layout: Layout, text: &[u8], piece: Piece) -> usize
    requires { LaidOut bytes.now layout × (piece.from ≤ piece.to) × (piece.to ≤ length text.now) }
    ensures { (result ≡ number_at (names_in bytes.now) piece.kind (part_of text.now piece.from piece.to)) × (result ≤ places) }
{
    if piece.kind != WORD {
        return 0;
    }
    match book_access::find_name(bytes, layout, book_bytes::part(text, piece.from, piece.to)) {
        Some(x) => x,
        None => PLACES,
    }
}

// Whether every word from a place on is a name of the book.
pub fn all_known(bytes: &[u8], layout: Layout, text: &[u8], at: usize) -> bool
    requires { LaidOut bytes.now layout × (at ≤ length text.now) }
    ensures { result ≡ known_tokens (names_in bytes.now) (tokens_at text.now at) }
{
    for piece in declaration_cursor::cursor_at(text, at) {
        if number_at(bytes, layout, text, piece) == PLACES {
            return false;
        }
    }
    true
}
