// The call that says whether a model accepts a word. It has no requirement: it says for every input what it answers.
#![tactic(auto)]

ghost use Rattle.std.specs.Prelude.{◌≡◌, ◌<◌};
ghost use Rattle.intake_word.specs.Acceptance.{bad_word, AcceptsWord};

use model::{Model, ModelRows};
pub use refusal::Acceptance;
use refusal::Refusal;

// The most names that a word may have in a call.
const LONGEST: usize = 255;

// Whether the word is too long, or has a number that is no name's.
#[tactic(auto, unfolding(crate::specs::Acceptance::bad_word))]
fn bad_word(names: usize, word: &[u8]) -> bool
    requires { 0 < names }
    ensures { result ≡ bad_word names word.now }
{
    LONGEST < word.len() || !book_bytes::all_below(word, names)
}

// The answer for the model of these rows: 3, then 10, then 11, else yes or no.
fn rows_accept_word(names: usize, rows: &ModelRows, word: &[u8]) -> Acceptance
    ensures { AcceptsWord names rows.now word.now result }
{
    if !nameset::good_count(names) {
        return Acceptance::Refused(Refusal::BadNameCount);
    }
    if !model_check::rows_are_model(names, rows) {
        return Acceptance::Refused(Refusal::NotAModel);
    }
    if bad_word(names, word) {
        return Acceptance::Refused(Refusal::BadWord);
    }
    if model_accept::rows_accept(rows.chain(), word) {
        Acceptance::Yes
    } else {
        Acceptance::No
    }
}

// Whether the model accepts the word. All below borrows its rows.
pub fn accepts_word(names: usize, model: Model, word: &[u8]) -> Acceptance
    ensures { AcceptsWord names model word.now result }
{
    rows_accept_word(names, &model.rows(), word)
}
