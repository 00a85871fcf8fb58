// The model record, its chain under construction, and the states of a run through a word.
#![tactic(auto)]

mod build; // build.rt: the chain under construction
mod rows; // rows.rt: chains and models whose rows are borrowed

ghost use Rattle.std.specs.Prelude.{◌≡◌, get_or};

use nameset::PLACES;
pub use rows::{ChainRows, ModelRows};

// The entry of a name that no factor holds.
pub const NO_FACTOR: u8 = 255;

// Paper 01's model record, laid out as C has it. `count` is its F, `factor` has for each name the factor that holds it
// or 255 for none, and `mode` has the mode of each factor.
#[repr(C)]
#[derive(Clone, Copy)]
pub struct Chain {
    pub count: usize,
    pub factor: [u8; PLACES],
    pub mode: [u8; PLACES],
}

// A model: its chain, and 1 where text is allowed, else 0 (paper 02, U5). In C it is one flat record with the text
// behind the modes.
#[repr(C)]
#[derive(Clone, Copy)]
pub struct Model {
    pub chain: Chain,
    pub text: u8,
}

// Where a run through a word stands: in which factor, and whether the word has a name of it already.
#[derive(Clone, Copy)]
pub struct State {
    pub factor: usize,
    pub taken: bool,
}

// What a factor does with the next name: it takes the name, it is left, or the word is not accepted.
#[derive(Clone, Copy)]
pub enum Turn {
    Take,
    Leave,
    Refuse,
}

// The entry at i, or `other` where the row has no such place.
pub fn entry(row: &[u8], i: usize, other: u8) -> u8
    ensures { result ≡ get_or row.now i other }
{
    row.get(i).copied().unwrap_or(other)
}
