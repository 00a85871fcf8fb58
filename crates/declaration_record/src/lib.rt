// The factors of a model, read from the tokens of a text into a record.
#![tactic(auto)]

ghost use Rattle.std.specs.Prelude.{◌≡◌, ◌≤◌, length};
ghost use Rattle.nameset.specs.Places.{places};
ghost use Rattle.book.specs.Book.{names_in};
ghost use Rattle.book.specs.Access.{LaidOut};
ghost use Rattle.declaration_walk.specs.Gather.{known_tokens, factors_answer};
ghost use Rattle.declaration_rows.specs.Place.{tokens_at};
ghost use Rattle.declaration_record.specs.Answered.{twice_or_unknown};

use book::Layout;
use declaration_spelling::Declared;
use model::{Chain, Model, NO_FACTOR};
use nameset::PLACES;
use refusal::Refusal;

// A name came twice before a place: 14 where a name from there on is not known, else 15.
#[tactic(auto, unfolding(crate::specs::Answered::twice_or_unknown))]
fn twice(bytes: &[u8], layout: Layout, text: &[u8], at: usize) -> Refusal
    requires { LaidOut bytes.now layout × (at ≤ length text.now) }
    ensures { result ≡ twice_or_unknown (known_tokens (names_in bytes.now) (tokens_at text.now at)) }
{
    if declaration_rows::all_known(bytes, layout, text, at) {
        Refusal::NameTwice
    } else {
        Refusal::UnknownName
    }
}

// The factors from a place on: one token after the other, into the rows of the record. `mixed` is its text byte.
pub fn read_factors(
    bytes: &[u8],
    layout: Layout,
    text: &[u8],
    at: usize,
    parent: usize,
    mixed: u8,
) -> Result<Declared, Refusal>
    requires { LaidOut bytes.now layout × (at ≤ length text.now) }
    ensures { result ≡ factors_answer places (names_in bytes.now) parent mixed (tokens_at text.now at) }
{
    let mut factor = [NO_FACTOR; PLACES];
    let mut mode = [0u8; PLACES];
    let mut index = 0;
    let mut i = at;
    while i < text.len() {
        let piece = declaration_cursor::piece_at(text, i);
        let x = declaration_rows::number_at(bytes, layout, text, piece);
        if x == PLACES {
            return Err(Refusal::UnknownName);
        }
        let free = declaration_rows::place_piece(&mut factor, piece.kind, x, index);
        declaration_rows::put_mode(&mut mode, index, declaration_rows::mode_of(piece.kind));
        index = declaration_rows::next_index(piece.kind, index);
        if !declaration_rows::fine(free, index) {
            return Err(twice(bytes, layout, text, piece.to));
        }
        i = piece.to;
    }
    let chain = Chain {
        count: index + 1,
        factor,
        mode,
    };
    let model = Model { chain, text: mixed };
    Ok(Declared { parent, model })
}
