// Of the names of each factor of one record, one that is lowest in another record, and one that is highest there. A
// name is lower than another if its factor comes earlier; a name that no factor holds is above all others.
#![tactic(auto)]

ghost use Rattle.std.specs.Prelude.{◌≤◌, ◌≡◌, Bool, cond, get_or, ltb};
ghost use Rattle.nameset.specs.Places.{places};
ghost use Rattle.model.specs.Record.{no_factor};
ghost use Rattle.model_extremes.specs.Extremes.{no_name, AreExtremes};

use model::{NO_FACTOR, entry};
use nameset::PLACES;

// In a row: a factor of which no name was seen.
const NO_NAME: u8 = 255;

// For each factor one of its lowest names and one of its highest.
#[derive(Clone, Copy)]
pub struct Extremes {
    pub low: [u8; PLACES],
    pub high: [u8; PLACES],
}

// Whether name a has an earlier factor than name b.
fn is_earlier(factor: &[u8], a: u8, b: u8) -> bool
    ensures { result ≡ ltb (get_or factor.now a no_factor) (get_or factor.now b no_factor) }
{
    entry(factor, a as usize, NO_FACTOR) < entry(factor, b as usize, NO_FACTOR)
}

// The name x, if there is no name before or x is better than it; else the name before.
fn better<F: Fn(u8, u8) -> bool>(before: u8, x: u8, is_better: F) -> u8
    requires { F.IsAlwaysCallable is_better }
    ensures none { before ≡ no_name → result ≡ x }
    ensures some { (before ≡ no_name → ⊥) → (b : Bool) × F.post is_better x before b × (result ≡ cond b x before) }
{
    if before == NO_NAME || is_better(x, before) {
        x
    } else {
        before
    }
}

// The extremes of each factor of the first record in the second: one pass over the n names.
pub fn extreme_names(n: usize, first: &[u8], second: &[u8]) -> Extremes
    requires { n ≤ places }
    ensures { AreExtremes n first.now second.now result }
{
    let mut low = [NO_NAME; PLACES];
    let mut high = [NO_NAME; PLACES];
    for x in 0..n as u8 {
        let i = entry(first, x as usize, NO_FACTOR) as usize;
        if i < PLACES {
            low[i] = better(low[i], x, |a, b| is_earlier(second, a, b));
            high[i] = better(high[i], x, |a, b| is_earlier(second, b, a));
        }
    }
    Extremes { low, high }
}
