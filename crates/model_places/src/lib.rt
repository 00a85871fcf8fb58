// Places of a chain: how far its steps lead from each place, and whether it has the step from one point to another.
#![tactic(auto)]

ghost use Rattle.std.specs.Prelude.{◌+◌, ◌≤◌, ◌<◌, ◌≡◌, cond};
ghost use Rattle.nameset.specs.Places.{places};
ghost use Rattle.model_language.specs.Step.{optional, repeats, place};
ghost use Rattle.model_places.specs.Places.{point, nearest, FarRow, has_step};

use model::{ChainRows, entry};
use nameset::PLACES;
use std::marker::Model;

// The places that a step may leave: the start, and each factor.
pub const LEFT: usize = PLACES + 1;

// A point of a word: its start, a name, its end.
#[derive(Clone, Copy)]
pub enum Spot {
    Start,
    Name(u8),
    End,
}

// A step of a word: from one point to the next.
#[derive(Clone, Copy)]
pub struct Step {
    pub from: Spot,
    pub to: Spot,
}

// Whether a factor of this mode may be left out.
#[tactic(auto, using(crate::proofs::Modes::is_optional, crate::proofs::Modes::not_optional))]
pub fn is_optional(mode: u8) -> bool
    ensures { result ≡ optional mode }
{
    matches!(mode, 1 | 3)
}

// Whether a factor of this mode may have more than one name.
#[tactic(auto, using(crate::proofs::Modes::is_repeated, crate::proofs::Modes::not_repeated))]
pub fn is_repeated(mode: u8) -> bool
    ensures { result ≡ repeats mode }
{
    matches!(mode, 2 | 3)
}

// How far a step leads from place p: over a factor that may be left out as far as from the next place, else to it.
fn far_over(mode: u8, p: usize, next: u8) -> u8
    requires { p < places }
    ensures { result ≡ cond (optional mode) next (p + 1) }
{
    if is_optional(mode) {
        next
    } else {
        (p + 1) as u8
    }
}

// How far a step leads from each place of a record: one pass, from the last factor to the first.
pub fn far_row(count: usize, modes: &[u8]) -> [u8; LEFT]
    requires { count ≤ places }
    ensures { FarRow count modes.now result }
{
    let mut row = [0u8; LEFT];
    let mut far = (count + 1) as u8;
    row[count] = far;
    for p in (0..count).rev() {
        far = far_over(entry(modes, p, 0), p, far);
        row[p] = far;
    }
    row
}

// A chain with borrowed rows, and how far a step leads from each of its places.
#[derive(Drop)]
pub struct Places<'a> {
    rows: ChainRows<'a>,
    far: [u8; LEFT],
}

impl<'a> Model for Places<'a> {
    ghost use Rattle.std.specs.Prelude.{◌≤◌};
    ghost use Rattle.model.specs.declared.Chain.{Chain};
    ghost use Rattle.nameset.specs.Places.{places};
    ghost use Rattle.model_places.specs.Places.{FarRow};

    ghost Value = { Chain };

    ghost view = { λ p. p.rows };

    ghost invariant = { λ p. (p.rows.count ≤ places) × FarRow p.rows.count p.rows.mode p.far };
}

impl<'a> Places<'a> {
    pub fn of(rows: ChainRows<'a>) -> Places<'a>
        requires { rows.count ≤ places }
        ensures { result ≡ rows.entry }
    {
        let far = far_row(rows.count(), rows.mode());
        Places { rows, far }
    }

    // The nearest place that a step from place p leads to.
    #[tactic(auto, using(crate::proofs::Rows::near_start, crate::proofs::Rows::near_loop, crate::proofs::Rows::near_next), unfolding(model::specs::Record::mode_of))]
    fn nearest(&self, p: usize) -> usize
        requires { p ≤ places }
        ensures { result ≡ nearest self.now.mode p }
    {
        if 0 < p && is_repeated(self.rows.mode_of(p - 1)) {
            p
        } else {
            p + 1
        }
    }

    fn place_of(&self, u: Spot) -> usize
        ensures { result ≡ place self.now (point u) }
    {
        match u {
            Spot::Start => 0,
            Spot::Name(x) => self.rows.factor_of(x) as usize + 1,
            Spot::End => self.rows.count() + 1,
        }
    }

    // Whether the chain has the step.
    pub fn has_step(&self, u: Spot, v: Spot) -> bool
        ensures { result ≡ has_step self.now (point u) (point v) }
    {
        let a = self.place_of(u);
        let b = self.place_of(v);
        a <= self.rows.count() && self.nearest(a) <= b && b <= entry(&self.far, a, 0) as usize
    }
}
