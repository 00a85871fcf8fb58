// The call that says whether every word of a model is a word of another (request U4 of paper 02). It has no
// requirement: it says for every input what it answers and what the buffer then holds.
#![tactic(auto)]

ghost use Rattle.std.specs.Prelude.{◌≡◌, ◌≤◌, length, Ok};
ghost use Rattle.nameset.specs.Places.{places};
ghost use Rattle.model.specs.Record.{IsChain};
ghost use Rattle.model.specs.Check.{is_model};
ghost use Rattle.model_inclusion.specs.Inclusion.{longest_counterexample};
ghost use Rattle.model_inclusion.specs.Search.{within};
ghost use Rattle.intake_within.specs.Comparison.{Leaves, ComparesModels};

use model::{Chain, Model};
use model_extremes::extreme_names;
use model_within::find_step;
use nameset::PLACES;
use refusal::Refusal;

// Yes; or no, with the length of a word of the first that is not one of the second; or why the call stopped.
#[derive(Clone, Copy)]
pub enum Inclusion {
    Yes,
    No(usize),
    Refused(Refusal),
}

// The most names that the word has, and the places that the buffer needs.
const LONGEST: usize = PLACES + 1;

// Whether a record is a model.
fn is_model(names: usize, m: Model) -> bool
    ensures { result ≡ is_model places names m }
{
    model_check::rows_are_model(names, &m.rows())
}

// The answer for two chains, with the word in the front of the buffer if it is no.
#[tactic(auto, using(crate::proofs::Answers::says_yes))]
fn compare_chains(names: usize, first: Chain, second: Chain, word: &mut [u8]) -> Inclusion
    requires { (names ≤ places) × IsChain places names first × IsChain places names second × (longest_counterexample ≤ length word.old) }
    ensures { Leaves first second (Ok (within names first second)) result word.old word.new }
{
    let extremes = extreme_names(names, &first.factor, &second.factor);
    match find_step(first, second, &extremes.low, &extremes.high) {
        None => Inclusion::Yes,
        Some(step) => {
            Inclusion::No(model_counterexample::put_word(word, first, &extremes.low, step))
        }
    }
}

// Whether every word of the first model is a word of the second: 3, then 10 for the first, 10 for the second, then 12,
// else yes or no. Words are of child names: what the models say of text is not compared.
#[tactic(auto, using(crate::proofs::Answers::stops_count, crate::proofs::Answers::stops_first, crate::proofs::Answers::stops_second, crate::proofs::Answers::stops_buffer))]
pub fn within(names: usize, first: Model, second: Model, word: &mut [u8]) -> Inclusion
    ensures { ComparesModels names first second result word.old word.new }
{
    if !nameset::good_count(names) {
        return Inclusion::Refused(Refusal::BadNameCount);
    }
    if !is_model(names, first) {
        return Inclusion::Refused(Refusal::NotAModel);
    }
    if !is_model(names, second) {
        return Inclusion::Refused(Refusal::NotAModel);
    }
    if word.len() < LONGEST {
        return Inclusion::Refused(Refusal::BufferTooShort);
    }
    compare_chains(names, first.chain, second.chain, word)
}
