// The model of a parent's sample, from the row that keeps its facts.
#![tactic(auto)]

ghost use Rattle.std.specs.Prelude.{◌≡◌, ℕ, ◌≤◌, length};
ghost use Rattle.nameset.specs.Places.{places};
ghost use Rattle.follow.specs.View.{view_of};
ghost use Rattle.follow_row.specs.Row.{row_size, facts_in, text_in, OfWords};
ghost use Rattle.chain_levels.specs.Chain.{chain_of};
ghost use Rattle.chain_mixed.specs.Mixed.{mixed_chain, model_of};
ghost use Rattle.chain_sample.specs.Sample.{show_word};

use follow_row::{EMPTY, ENDS, FOLLOWS, STARTS, TEXT};
use model::{Chain, Model};
use nameset::row_at;

// Whether the facts of a row show a word.
pub fn shows_word(row: &[u64]) -> bool
    requires { length row.now ≡ row_size }
    ensures { (n : ℕ) → result ≡ show_word places (view_of n (facts_in row.now)) }
{
    row[EMPTY] == 1 || !row_at(row, STARTS).is_empty()
}

// The chain that the facts of a row give.
fn row_chain(row: &[u64], n: usize) -> Chain
    requires { (n ≤ places) × OfWords n row.now }
    ensures { result ≡ chain_of places (view_of n (facts_in row.now)) }
{
    chain::chain(
        row_at(row, STARTS),
        row_at(row, ENDS),
        &row[FOLLOWS..],
        row[EMPTY] == 1,
        n,
    )
}

// The chain that they give where the parent has text.
fn row_mixed(row: &[u64], n: usize) -> Chain
    requires { (n ≤ places) × OfWords n row.now }
    ensures { result ≡ mixed_chain places (view_of n (facts_in row.now)) }
{
    chain_mixed::mixed_chain(row_at(row, STARTS), &row[FOLLOWS..], n)
}

// The model that a row gives.
pub fn row_model(row: &[u64], n: usize) -> Model
    requires { (n ≤ places) × OfWords n row.now }
    ensures { result ≡ model_of places (view_of n (facts_in row.now)) (text_in row.now) }
{
    if row[TEXT] == 1 {
        Model {
            chain: row_mixed(row, n),
            text: 1,
        }
    } else {
        Model {
            chain: row_chain(row, n),
            text: 0,
        }
    }
}
