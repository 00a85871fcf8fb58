// Whether each factor of a record has a name: few factors are looked for one by one, more are gathered in one pass.
#![tactic(auto)]

ghost use Rattle.std.specs.Prelude.{ℕ, ◌+◌, ◌≤◌, ◌<◌, ◌≡◌, true, ◌||◌, eqb, ltb, length, get_or};
ghost use Rattle.nameset.specs.Places.{places};
ghost use Rattle.nameset.specs.Set.{capacity, member};
ghost use Rattle.model.specs.Record.{no_factor};
ghost use Rattle.nameset.specs.Tests.{every_below, any_below};
ghost use Rattle.model.specs.Check.{may_hold, all_placed, all_named};

use model::{NO_FACTOR, entry};
use nameset::{NameSet, PLACES};

// With at least this many names to a factor it is faster to look for each factor by itself.
const NAMES_EACH: usize = 5;

// The last factor that a record may have, where it has as many as there are places.
const LAST: usize = 63;

// Whether factor v holds one of the n names. No early end: the loop runs over many entries at once.
fn holds_name(n: usize, factor: &[u8], v: u8) -> bool
    requires { v < no_factor }
    ensures { result ≡ any_below n (λ x. eqb (get_or factor.now x no_factor) v) }
{
    let mut found = false;
    for x in 0..n.min(factor.len()) {
        found |= factor[x] == v;
    }
    found
}

// Whether each factor but the first `from` holds one of the n names.
fn each_named(n: usize, from: usize, count: usize, factor: &[u8]) -> bool
    requires { count ≤ places }
    ensures { result ≡ every_below count (λ i. ltb i from || any_below n (λ x. eqb (get_or factor.now x no_factor) i)) }
{
    for i in from..count {
        if !holds_name(n, factor, i as u8) {
            return false;
        }
    }
    true
}

// The number by which an entry goes into a set: its last six bits. A factor has its own number, but 255, the entry of a
// name that no factor holds, has that of the last factor.
#[tactic(auto, using(crate::proofs::Naming::same_bits))]
fn in_set(v: u8) -> usize
    ensures { (result < capacity) × ((i : ℕ) → i + 1 < places → may_hold places true v ≡ true → eqb result i ≡ eqb v i) }
{
    (v as usize) % PLACES
}

// The factors that hold one of the n names, where all entries are right. Of the last factor the set says nothing. Names
// of the first and of the second half go into two sets, so that one need not wait for the other.
fn used_factors(n: usize, factor: &[u8]) -> NameSet
    ensures { (count i : ℕ) → count ≤ places → all_placed (length factor.now) n count factor.now ≡ true → i + 1 < places → member result i ≡ any_below n (λ x. eqb (get_or factor.now x no_factor) i) }
{
    let end = n.min(factor.len());
    let half = end - end / 2;
    let mut first = NameSet::empty();
    let mut second = NameSet::empty();
    for x in 0..half {
        first = first.with(in_set(factor[x]));
        second = second.with(in_set(entry(factor, x + half, NO_FACTOR)));
    }
    first.union(second)
}

// Whether every factor is in the set: the first number that is not in it is no factor's.
fn all_used(count: usize, used: NameSet) -> bool
    requires { count ≤ places }
    ensures { result ≡ every_below count (member used) }
{
    count <= NameSet::full().minus(used).first()
}

// Whether each factor holds one of the n names, where all entries are right.
pub fn all_named(n: usize, count: usize, factor: &[u8]) -> bool
    requires { (count ≤ places) × (all_placed (length factor.now) n count factor.now ≡ true) }
    ensures { result ≡ all_named n count factor.now }
{
    if count <= n / NAMES_EACH {
        return each_named(n, 0, count, factor);
    }
    let told = count.min(LAST);
    all_used(told, used_factors(n, factor)) && each_named(n, told, count, factor)
}
