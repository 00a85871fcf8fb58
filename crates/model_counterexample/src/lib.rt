// A word that has a given step of a chain, put into a borrowed buffer. Before the step and behind it the word has one
// name of each factor that may not be left out. `names` has a name of each factor.
#![tactic(auto)]

ghost use Rattle.std.specs.Prelude.{◌+◌, ◌-◌, ◌≤◌, length};
ghost use Rattle.nameset.specs.Places.{places};
ghost use Rattle.model_inclusion.specs.Inclusion.{longest_counterexample};
ghost use Rattle.model_inclusion.specs.Over.{needed, lead, tail};
ghost use Rattle.model_language.specs.Step.{place, Held};
ghost use Rattle.model_places.specs.Places.{point};
ghost use Rattle.byte_buffer.specs.Put.{Put};
ghost use Rattle.model_counterexample.specs.Word.{name_in, Stepping, Shown};

use model::{Chain, NO_FACTOR, entry};
use model_places::{Spot, Step, is_optional};

// Puts a name of each of the factors from `first` up to `end` that may not be left out, from place `at` on. Answers the
// place behind them.
fn put_needed(
    word: &mut [u8],
    at: usize,
    modes: &[u8],
    names: &[u8],
    first: usize,
    end: usize,
) -> usize
    requires { (at + (end - first) ≤ length word.old) × (first ≤ end) }
    ensures { Put word.old at (needed modes.now (name_in names.now) first (end - first)) result word.new }
{
    let mut to = at;
    for i in first..end {
        if !is_optional(entry(modes, i, 0)) {
            word[to] = entry(names, i, 0);
            to += 1;
        }
    }
    to
}

// Puts the names up to a point that a step leaves, and answers how many they are.
#[tactic(auto, using(crate::proofs::Words::low, crate::proofs::Words::lead_room, crate::proofs::Words::lead_none))]
fn put_lead(word: &mut [u8], m: Chain, names: &[u8], u: Spot) -> usize
    requires { Held m (point u) × (m.count ≤ places) × (longest_counterexample ≤ length word.old) }
    ensures { Put word.old 0 (lead m (name_in names.now) (point u)) result word.new }
{
    match u {
        Spot::Start | Spot::End => 0,
        Spot::Name(x) => {
            let own = entry(&m.factor, x as usize, NO_FACTOR) as usize;
            let at = put_needed(word, 0, &m.mode, names, 0, own);
            word[at] = x;
            at + 1
        }
    }
}

// Puts the names from a point on that a step leads to, from place `at` on. Answers the place behind them.
#[tactic(auto, using(crate::proofs::Words::low, crate::proofs::Words::tail_room, crate::proofs::Words::tail_none))]
fn put_tail(word: &mut [u8], at: usize, m: Chain, names: &[u8], v: Spot) -> usize
    requires { Held m (point v) × (m.count ≤ places) × (at ≤ place m (point v)) × (longest_counterexample ≤ length word.old) }
    ensures { Put word.old at (tail m (name_in names.now) (point v)) result word.new }
{
    match v {
        Spot::Start | Spot::End => at,
        Spot::Name(y) => {
            let own = entry(&m.factor, y as usize, NO_FACTOR) as usize;
            word[at] = y;
            put_needed(word, at + 1, &m.mode, names, own + 1, m.count)
        }
    }
}

// Puts a word of the chain that has the step, and answers its length.
pub fn put_word(word: &mut [u8], m: Chain, names: &[u8], step: Step) -> usize
    requires { Stepping m names.now (point step.from) (point step.to) × (longest_counterexample ≤ length word.old) }
    ensures { Shown m (point step.from) (point step.to) word.old result word.new }
{
    let at = put_lead(word, m, names, step.from);
    put_tail(word, at, m, names, step.to)
}
