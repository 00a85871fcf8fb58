// Sets of name numbers by value, one bit for each number, and rows of machine words that keep such sets.
#![tactic(auto)]

ghost use Rattle.std.specs.Prelude.{◌≡◌, ◌<◌, ◌≤◌, false, not, ◌&&◌, ◌||◌, ◌==◌, nat_lt};
ghost use Rattle.nameset.specs.Places.{good_count};
ghost use Rattle.nameset.specs.Set.{capacity, member, empty, full, below, with, without, union, both, minus};
ghost use Rattle.nameset.specs.Promise.{Made, Emptiness, Smallest, Shrunk};

mod names; // names.rt: a loop over the members of a set
mod row; // row.rt: sets kept as rows of machine words

pub use names::Names;
pub use row::{put_row, row_at};

// The number of places: names are numbered below it.
pub const PLACES: usize = 64;

// How many words keep a row for each place: one word a row.
pub const ROWS: usize = PLACES;

// Whether there may be this many names.
#[tactic(auto, unfolding(crate::specs::Places::good_count))]
pub fn good_count(names: usize) -> bool
    ensures { result ≡ good_count names }
{
    1 <= names && names <= PLACES
}

// The number i is a member where bit i is 1. Only this crate looks at the bits.
#[derive(Clone, Copy)]
pub struct NameSet {
    bits: u64,
}

impl NameSet {
    #[tactic(auto, using(crate::proofs::Laws::member_empty))]
    pub fn empty() -> NameSet
        ensures { Made result empty (λ j. false) }
    {
        NameSet { bits: 0 }
    }

    // The set of all numbers that there is room for.
    #[tactic(auto, using(crate::proofs::Laws::member_full))]
    pub fn full() -> NameSet
        ensures { Made result full (λ j. nat_lt j capacity) }
    {
        NameSet {
            bits: 0xffff_ffff_ffff_ffff,
        }
    }

    // The set of all numbers below n.
    #[tactic(auto, unfolding(crate::specs::Set::below), using(crate::proofs::Laws::member_below))]
    pub fn below(n: usize) -> NameSet
        requires { (0 < n) × (n ≤ capacity) }
        ensures { Made result (below n) (λ j. nat_lt j n) }
    {
        NameSet {
            bits: 0xffff_ffff_ffff_ffff >> (64 - n),
        }
    }

    #[tactic(auto, unfolding(crate::specs::Set::member))]
    pub fn has(self, i: usize) -> bool
        requires { i < capacity }
        ensures { result ≡ member self i }
    {
        (self.bits >> i) % 2 == 1
    }

    #[tactic(auto, unfolding(crate::specs::Set::with), using(crate::proofs::Laws::member_with, crate::proofs::Digits::one_shifted))]
    pub fn with(self, i: usize) -> NameSet
        requires { i < capacity }
        ensures { Made result (with self i) (λ j. member self j || i == j) }
    {
        NameSet {
            bits: self.bits | (1u64 << i),
        }
    }

    #[tactic(auto, unfolding(crate::specs::Set::without), using(crate::proofs::Laws::member_without, crate::proofs::Digits::one_shifted))]
    pub fn without(self, i: usize) -> NameSet
        requires { i < capacity }
        ensures { Made result (without self i) (λ j. member self j && not (i == j)) }
    {
        NameSet {
            bits: self.bits ^ (self.bits & (1u64 << i)),
        }
    }

    #[tactic(auto, unfolding(crate::specs::Set::union), using(crate::proofs::Laws::member_union))]
    pub fn union(self, other: NameSet) -> NameSet
        ensures { Made result (union self other) (λ j. member self j || member other j) }
    {
        NameSet {
            bits: self.bits | other.bits,
        }
    }

    // The names in both sets.
    #[tactic(auto, unfolding(crate::specs::Set::both), using(crate::proofs::Laws::member_both))]
    pub fn both(self, other: NameSet) -> NameSet
        ensures { Made result (both self other) (λ j. member self j && member other j) }
    {
        NameSet {
            bits: self.bits & other.bits,
        }
    }

    // The names of the first set that are not in the other.
    #[tactic(auto, unfolding(crate::specs::Set::minus), using(crate::proofs::Laws::member_minus))]
    pub fn minus(self, other: NameSet) -> NameSet
        ensures { Made result (minus self other) (λ j. member self j && not (member other j)) }
    {
        NameSet {
            bits: self.bits ^ (self.bits & other.bits),
        }
    }

    #[tactic(auto, unfolding(crate::specs::Set::is_empty), using(crate::proofs::Laws::is_empty_none, crate::proofs::Laws::none_is_empty))]
    pub fn is_empty(self) -> bool
        ensures { Emptiness self result }
    {
        self.bits == 0
    }

    // The smallest member, or the capacity where there is none.
    #[tactic(auto, unfolding(crate::specs::Set::first), using(crate::proofs::Laws::first_bound, crate::proofs::Laws::first_least, crate::proofs::Laws::first_in))]
    pub fn first(self) -> usize
        ensures { Smallest self result }
    {
        self.bits.trailing_zeros() as usize
    }

    // The set without its smallest member; the empty set stays empty.
    #[tactic(auto, using(crate::proofs::Laws::member_rest, crate::proofs::Laws::rest_smaller, crate::proofs::Laws::rest_lowered))]
    pub fn rest(self) -> NameSet
        ensures { Shrunk self result }
    {
        NameSet {
            bits: self.bits & self.bits.wrapping_sub(1),
        }
    }
}
