// One token of a declaration: the number of its name by the book, and what it changes in the rows of the record under
// way, the factor of each name and the mode of each factor.
#![tactic(auto)]

ghost use Rattle.std.specs.Prelude.{◌≡◌, ◌&&◌, ◌<◌, ltb, length, set};
ghost use Rattle.nameset.specs.Places.{places};
ghost use Rattle.declaration_rows.specs.Place.{free_at, free_kind, factor_after, kind_mode, mode_after, index_after};

use declaration_scan::{COMMA, PLUS, QUESTION, STAR, WORD};
use model::NO_FACTOR;
use nameset::PLACES;

mod lookup; // lookup.rt: names of a text by the book

pub use lookup::{all_known, number_at};

// The name x into the factor under way; whether no factor held it before.
fn place_name(factor: &mut [u8], x: usize, index: usize) -> bool
    requires { (x < length factor.old) × (index < places) }
    ensures { (result ≡ free_at factor.old x) × (factor.new ≡ set factor.old x index) × (length factor.new ≡ length factor.old) }
{
    let free = factor[x] == NO_FACTOR;
    factor[x] = index as u8;
    free
}

// The number x of a word into the factor under way; false where a factor held it before.
pub fn place_piece(factor: &mut [u8], kind: u8, x: usize, index: usize) -> bool
    requires { (x < length factor.old) × (index < places) }
    ensures { (result ≡ free_kind kind factor.old x) × (factor.new ≡ factor_after kind factor.old x index) × (length factor.new ≡ length factor.old) }
{
    if kind != WORD {
        return true;
    }
    place_name(factor, x, index)
}

// The mode that a mark stands for: 0 for what is no mark.
#[tactic(auto, unfolding(crate::specs::Place::kind_mode))]
pub fn mode_of(kind: u8) -> u8
    ensures { result ≡ kind_mode kind }
{
    match kind {
        QUESTION => 1,
        PLUS => 2,
        STAR => 3,
        _ => 0,
    }
}

// The mode of the factor under way: 0 is there already.
pub fn put_mode(mode: &mut [u8], index: usize, m: u8)
    requires { index < length mode.old }
    ensures { (mode.new ≡ mode_after m mode.old index) × (length mode.new ≡ length mode.old) }
{
    if m != 0 {
        mode[index] = m;
    }
}

// The factor under way behind a token: a comma begins the next one.
#[tactic(auto, unfolding(crate::specs::Place::index_after))]
pub fn next_index(kind: u8, index: usize) -> usize
    requires { index < places }
    ensures { result ≡ index_after kind index }
{
    if kind == COMMA { index + 1 } else { index }
}

// Whether the name was free and the record has a place for the factor.
pub fn fine(free: bool, index: usize) -> bool
    ensures { result ≡ (free && ltb index places) }
{
    free && index < PLACES
}
