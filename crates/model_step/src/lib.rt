// One step of a run through a word: what a factor does with the next name, where the run goes, whether it may end.
#![tactic(auto)]

ghost use Rattle.std.specs.Prelude.{◌≡◌};
ghost use Rattle.model.specs.Run.{turn_of, goes_to, went_to, move, may_end};

use model::{ChainRows, State, Turn};

// `taken` says whether the factor has taken a name, `here` whether it holds the next one.
#[tactic(auto, using(crate::proofs::Turning::no_mode, crate::proofs::Turning::again, crate::proofs::Turning::once, crate::proofs::Turning::first, crate::proofs::Turning::done, crate::proofs::Turning::skipped, crate::proofs::Turning::missed,))]
fn next_turn(mode: u8, taken: bool, here: bool) -> Turn
    ensures { result ≡ turn_of mode taken here }
{
    if here {
        if taken {
            match mode {
                0..=1 => Turn::Leave,
                2..=3 => Turn::Take,
                4..=255 => Turn::Refuse, // no mode: the check of the record refuses these
            }
        } else {
            match mode {
                0..=3 => Turn::Take,
                4..=255 => Turn::Refuse,
            }
        }
    } else if taken {
        match mode {
            0..=3 => Turn::Leave,
            4..=255 => Turn::Refuse,
        }
    } else {
        match mode {
            1 | 3 => Turn::Leave,
            _ => Turn::Refuse,
        }
    }
}

// The state in factor `own`, which has taken a name, if the run went there.
#[tactic(auto, unfolding(model::specs::Run::went_to))]
fn went_to(there: bool, own: usize) -> Option<State>
    ensures { result ≡ went_to there own }
{
    if there {
        Some(State {
            factor: own,
            taken: true,
        })
    } else {
        None
    }
}

// Where a run goes from a state for a name of the factor `own`: factors are left until one takes the name or refuses.
// `through` says whether it goes on if all are left. Where there is no name, `own` is a number that no factor has.
fn goes_to(rows: &ChainRows, own: usize, through: bool, from: State) -> Option<State>
    ensures { result ≡ went_to (goes_to rows.now.count rows.now.mode own through from) own }
{
    let mut taken = from.taken;
    for factor in from.factor..rows.count() {
        match next_turn(rows.mode_of(factor), taken, own == factor) {
            Turn::Take => {
                return went_to(true, own);
            }
            Turn::Refuse => {
                return None;
            }
            Turn::Leave => {
                taken = false;
            }
        }
    }
    went_to(through, own)
}

// The state after the name x: the factor that holds x has taken it.
pub fn step(rows: &ChainRows, x: u8, from: State) -> Option<State>
    ensures { result ≡ move rows.now (Some from) x }
{
    let own = rows.factor_of(x) as usize;
    goes_to(rows, own, false, from)
}

// Whether a word may end at a state: all factors from there on can be left.
#[tactic(auto, using(crate::proofs::Ends::went_is_some), unfolding(model::specs::Run::may_end))]
pub fn may_end(rows: &ChainRows, from: State) -> bool
    ensures { result ≡ may_end rows.now (Some from) }
{
    goes_to(rows, rows.count(), true, from).is_some()
}
