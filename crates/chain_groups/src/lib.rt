// Loop groups, by what each name reaches, and which of these names stand behind it.
#![tactic(auto)]

ghost use Rattle.std.specs.Prelude.{◌≡◌, ℕ, ◌≤◌, ◌<◌};
ghost use Rattle.nameset.specs.Places.{places};
ghost use Rattle.nameset.specs.Set.{member};
ghost use Rattle.nameset.specs.Rows.{IsRows};
ghost use Rattle.chain_rows.specs.Rows.{in_row, OnlyNames, Transitive};
ghost use Rattle.chain_groups.specs.Groups.{group_in, together, PutEach, Grouped};

use chain_rows::{copied, with_if};
use nameset::{NameSet, ROWS, put_row, row_at};

// The loop group of a name.
#[tactic(auto, unfolding(crate::specs::Groups::group_in))]
pub fn group(reach: &[u64], behind: &[u64], a: usize) -> NameSet
    requires { (a < places) × IsRows places reach.now × IsRows places behind.now }
    ensures { result ≡ group_in reach.now behind.now a }
{
    row_at(reach, a).minus(row_at(behind, a))
}

// The names that reach themselves.
fn looping(reach: &[u64], n: usize) -> NameSet
    requires { (n ≤ places) × OnlyNames n reach.now }
    ensures { (a : ℕ) → member result a ≡ in_row reach.now a a }
{
    let mut s = NameSet::empty();
    for a in 0..n {
        s = with_if(s, a, row_at(reach, a).has(a));
    }
    s
}

// The names that a reaches and that reach a.
fn group_of(reach: &[u64], a: usize) -> NameSet
    requires { (a < places) × IsRows places reach.now }
    ensures { (b : ℕ) → member result b ≡ together reach.now a b }
{
    let mut s = NameSet::empty();
    for b in row_at(reach, a).names() {
        s = with_if(s, b, row_at(reach, b).has(a));
    }
    s
}

// Puts the same set in as the row of each name of a group.
fn put_each(rows: &mut [u64], group: NameSet, set: NameSet)
    requires { IsRows places rows.old }
    ensures { PutEach rows.old rows.new group set }
{
    for a in group.names() {
        put_row(rows, a, set);
    }
}

// What stands behind each name, the names in loop groups, and the smallest name of each group.
#[derive(Clone, Copy)]
pub struct Loops {
    pub behind: [u64; ROWS],
    pub names: NameSet,
    pub leaders: NameSet,
}

// The loop groups of n names. What a name reaches stands behind it, but for the names of its own group; so the rows of
// names in no group stay, and those of one group are alike.
pub fn loop_groups(reach: &[u64], n: usize) -> Loops
    requires { (n ≤ places) × OnlyNames n reach.now × Transitive reach.now }
    ensures { Grouped reach.now result.behind result.names result.leaders }
{
    let names = looping(reach, n);
    let mut behind = copied(reach);
    let mut leaders = NameSet::empty();
    let mut left = names;
    // No `for` over the names: each turn takes a whole group off them.
    while !left.is_empty() {
        let a = left.first();
        let group = group_of(reach, a);
        let others = row_at(reach, a).minus(group);
        put_each(&mut behind, group, others);
        leaders = leaders.with(a);
        left = left.minus(group);
    }
    Loops {
        behind,
        names,
        leaders,
    }
}
