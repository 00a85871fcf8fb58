// The conditions on the entries and on the modes of a model record, each by itself.
#![tactic(auto)]

ghost use Rattle.std.specs.Prelude.{ℕ, ◌≡◌, true, ◌||◌, ltb, leb, length, get_or};
ghost use Rattle.model.specs.Record.{no_factor};
ghost use Rattle.nameset.specs.Tests.{every_below};
ghost use Rattle.model.specs.Check.{may_hold, may_be, all_placed, all_known};

use byte_row::{larger, largest_from};
use model::NO_FACTOR;

// An entry counted from 1, and 0 for none: it is at most F exactly where a name may have that entry.
#[tactic(auto, using(crate::proofs::Factors::none_counted, crate::proofs::Factors::factor_counted))]
fn counted(v: u8) -> u8
    ensures { (count : ℕ) → leb result count ≡ may_hold count true v }
{
    if v == NO_FACTOR { 0 } else { v + 1 }
}

// Whether each number from a place on is in one of the first `count` factors or in none. No early end: the loop runs
// over many entries at once.
#[tactic(auto, using(crate::proofs::Factors::among_start, crate::proofs::Factors::among_next, crate::proofs::Factors::among_done))]
fn all_among(count: usize, factor: &[u8], from: usize) -> bool
    ensures { result ≡ every_below (length factor.now) (λ x. ltb x from || may_hold count true (get_or factor.now x no_factor)) }
{
    let mut top: u8 = 0;
    for x in from..factor.len() {
        top = larger(top, counted(factor[x]));
    }
    (top as usize) <= count
}

// Whether each number has an entry that it may have: every number one of the factors or none, and those that are no
// name's none.
#[tactic(auto, using(crate::proofs::Factors::placed))]
pub fn all_placed(n: usize, count: usize, factor: &[u8]) -> bool
    ensures { result ≡ all_placed (length factor.now) n count factor.now }
{
    all_among(count, factor, 0) && all_among(0, factor, n)
}

// Whether a mode may be that of a factor that the record has.
#[tactic(auto, unfolding(model::specs::Check::may_be))]
fn is_mode(mode: u8) -> bool
    ensures { result ≡ may_be true mode }
{
    mode <= 3
}

// Whether each factor has a mode that it may have: the largest mode is judged, and the largest of those that belong to
// no factor.
#[tactic(auto, using(crate::proofs::Modes::known), unfolding(model::specs::Check::may_be))]
pub fn all_known(count: usize, mode: &[u8]) -> bool
    ensures { result ≡ all_known (length mode.now) count mode.now }
{
    is_mode(largest_from(mode, 0)) && largest_from(mode, count) == 0
}
