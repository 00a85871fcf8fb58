// Whether every word of one chain is a word of another: one pass over the factors of the first; where it is not, a step
// of the first that the second does not have.
#![tactic(auto)]

ghost use Rattle.std.specs.Prelude.{◌≤◌, ◌≡◌};
ghost use Rattle.nameset.specs.Places.{places};
ghost use Rattle.model.specs.Record.{IsChain};
ghost use Rattle.model_inclusion.specs.Search.{within};
ghost use Rattle.model_within.specs.Pass.{Comparable, spot_at, low_next, Needed, PassedBy, Told};

use model::{Chain, entry};
use model_extremes::extreme_names;
use model_places::{Places, Spot, Step, is_optional, is_repeated};
use nameset::PLACES;

// Of the points that a step of the first to the next factor may leave, the lowest in the second and the highest.
// Each is the number of a name, or `PLACES` for the start: points as enums would be packed and unpacked for each factor.
#[derive(Clone, Copy)]
struct Frontier {
    low: usize,
    high: usize,
}

// Of the names of a factor of the first, the lowest in the second and the highest.
#[derive(Clone, Copy)]
struct Span {
    low: u8,
    high: u8,
}

// The point that such a number means.
#[tactic(auto, unfolding(crate::specs::Pass::spot_at))]
fn spot_at(x: usize) -> Spot
    ensures { result ≡ spot_at x }
{
    if x < PLACES {
        Spot::Name(x as u8)
    } else {
        Spot::Start
    }
}

// The lowest point behind a factor: if the factor may be left out, the one before it.
#[tactic(auto, unfolding(crate::specs::Pass::low_next))]
fn low_next(mode: u8, low: usize, lo: usize) -> usize
    ensures { result ≡ low_next mode low lo }
{
    if is_optional(mode) { low } else { lo }
}

// Stops at a step that the second does not have.
fn need_step(second: &Places, from: Spot, to: Spot) -> Result<(), Step>
    ensures { Needed second.now from to result }
{
    if second.has_step(from, to) {
        Ok(())
    } else {
        Err(Step { from, to })
    }
}

// Past a factor of this mode, whose names have these extremes; or a step into it that the second does not have.
#[tactic(auto, using(crate::proofs::Tests::stuck_low, crate::proofs::Tests::stuck_high, crate::proofs::Tests::stuck_loop))]
fn pass_factor(second: &Places, g: Frontier, s: Span, mode: u8) -> Result<Frontier, Step>
    ensures { PassedBy second.now g s mode result }
{
    need_step(second, spot_at(g.low), Spot::Name(s.high))?;
    need_step(second, spot_at(g.high), Spot::Name(s.low))?;
    if is_repeated(mode) {
        need_step(second, Spot::Name(s.high), Spot::Name(s.low))?;
    }
    Ok(Frontier {
        low: low_next(mode, g.low, s.low as usize),
        high: s.high as usize,
    })
}

// A step of the first chain that the second does not have, if there is one. `low` and `high` have for each factor of
// the first its lowest and its highest name in the second.
pub fn find_step(first: Chain, second: Chain, low: &[u8], high: &[u8]) -> Option<Step>
    requires { Comparable first second low.now high.now }
    ensures { Told first second result }
{
    let places = Places::of(second.rows());
    let mut frontier = Frontier {
        low: PLACES,
        high: PLACES,
    };
    for i in 0..first.count {
        let s = Span {
            low: entry(low, i, 0),
            high: entry(high, i, 0),
        };
        match pass_factor(&places, frontier, s, first.mode[i]) {
            Ok(next) => frontier = next,
            Err(step) => return Some(step),
        }
    }
    need_step(&places, spot_at(frontier.low), Spot::End).err()
}

// Whether every word of the first chain is a word of the second.
pub fn is_within(n: usize, first: Chain, second: Chain) -> bool
    requires { (n ≤ places) × IsChain places n first × IsChain places n second }
    ensures { result ≡ within n first second }
{
    let names = extreme_names(n, &first.factor, &second.factor);
    find_step(first, second, &names.low, &names.high).is_none()
}
