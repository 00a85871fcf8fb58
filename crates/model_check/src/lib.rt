// Whether a model record is a model: a chain, and a text byte that fits it.
#![tactic(auto)]

ghost use Rattle.std.specs.Prelude.{◌≡◌};
ghost use Rattle.nameset.specs.Places.{places};
ghost use Rattle.model.specs.Record.{mode_of};
ghost use Rattle.model.specs.Check.{is_chain, may_have_text, text_fits, is_model};

use model::{ChainRows, ModelRows};
use model_named::all_named;
use model_rows::{all_known, all_placed};
use nameset::PLACES;

// Whether the record of these rows is a chain over n names.
#[tactic(auto, unfolding(model::specs::Check::is_chain))]
pub fn rows_are_chain(n: usize, rows: &ChainRows) -> bool
    ensures { result ≡ is_chain places n rows.now }
{
    let count = rows.count();
    let factor = rows.factor();
    let mode = rows.mode();
    factor.len() == PLACES
        && mode.len() == PLACES
        && count <= PLACES
        && all_placed(n, count, factor)
        && all_named(n, count, factor)
        && all_known(count, mode)
}

// The mode of a factor whose names may come any number of times.
const STARRED: u8 = 3;

// Whether a chain of these rows may have text.
#[tactic(auto, unfolding(model::specs::Check::may_have_text))]
fn may_have_text(rows: &ChainRows) -> bool
    ensures { result ≡ may_have_text rows.now.count (mode_of rows.now 0) }
{
    rows.count() == 0 || (rows.count() == 1 && rows.mode_of(0) == STARRED)
}

// Whether a text byte fits such a chain.
#[tactic(auto, unfolding(model::specs::Check::text_fits))]
fn text_fits(text: u8, rows: &ChainRows) -> bool
    ensures { result ≡ text_fits text rows.now.count (mode_of rows.now 0) }
{
    match text {
        0 => true,
        1 => may_have_text(rows),
        2..=255 => false,
    }
}

// Whether the record of these rows is a model over n names.
#[tactic(auto, unfolding(model::specs::Check::is_model))]
pub fn rows_are_model(n: usize, rows: &ModelRows) -> bool
    ensures { result ≡ is_model places n rows.now }
{
    let chain = rows.chain();
    rows_are_chain(n, chain) && text_fits(rows.text(), chain)
}
