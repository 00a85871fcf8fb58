// From follow facts to the chain: reach, loop groups, levels, skips and the factors of each level.
#![tactic(auto)]

ghost use Rattle.std.specs.Prelude.{◌≡◌, ◌&&◌, ◌||◌, not, ℕ, ◌≤◌};
ghost use Rattle.nameset.specs.Places.{places};
ghost use Rattle.nameset.specs.Set.{member};
ghost use Rattle.nameset.specs.Rows.{IsRows};
ghost use Rattle.chain_levels.specs.Chain.{chain_of};
ghost use Rattle.follow.specs.View.{view_of, facts_with};
ghost use Rattle.chain_peel.specs.Shown.{Shown};
ghost use Rattle.chain_peel.specs.Sets.{meets, in_rows};
ghost use Rattle.chain_rows.specs.Rows.{in_row, Transitive};

use chain_factors::with_level;
use chain_groups::loop_groups;
use chain_reach::reach_rows;
use chain_rows::{pick, rows_of, with_rows};
use model::Chain;
use nameset::{NameSet, row_at};

// Whether a name is in both sets.
#[tactic(auto, using(crate::proofs::Sets::meet_law))]
fn meets(a: NameSet, b: NameSet) -> bool
    ensures { result ≡ meets places (member a) (member b) }
{
    !a.both(b).is_empty()
}

// Whether some step goes from the lower names, or from start, to the higher names, or to the end; `stepped` has the
// names that a lower one, or start, leads to.
fn steps_over(empty: bool, ends: NameSet, stepped: NameSet, lower: NameSet, higher: NameSet) -> bool
    ensures { result ≡ (empty || (meets places (member ends) (member lower)
        || meets places (member stepped) (member higher))) }
{
    empty || meets(ends, lower) || meets(stepped, higher)
}

// The names that stand behind none of the others: of those that are left, the next level. What stands behind a name
// that stands behind another stands behind that one too, so only the others are looked at, `likely` ones first.
fn next_level(behind: &[u64], higher: NameSet, likely: NameSet) -> NameSet
    requires { IsRows places behind.now × Transitive behind.now }
    ensures { (x : ℕ) → member result x
        ≡ (member higher x && not (in_rows places (in_row behind.now) (member higher) x)) }
{
    let mut level = higher;
    let mut left = higher;
    // No `for` over the names: each turn takes all that stand behind one off those that are left.
    while !left.is_empty() {
        let a = pick(left, likely);
        let row = row_at(behind, a);
        level = level.minus(row);
        left = left.minus(row.with(a));
    }
    level
}

// The chain that follow facts give. The names that occur are those that start and those in a follow row.
pub fn chain(starts: NameSet, ends: NameSet, follows: &[u64], empty: bool, n: usize) -> Chain
    requires { (n ≤ places) × IsRows places follows.now
        × Shown (view_of n (facts_with starts ends follows.now empty)) }
    ensures { result ≡ chain_of places (view_of n (facts_with starts ends follows.now empty)) }
{
    let reach = reach_rows(follows, n);
    let loops = loop_groups(&reach, n);
    let mut m = Chain::empty();
    let mut lower = NameSet::empty();
    let mut higher = with_rows(starts, follows, n);
    let mut stepped = starts;
    // No `for` over the names: each turn takes a whole level off them.
    while !higher.is_empty() {
        let level = next_level(&loops.behind, higher, stepped);
        let above = higher.minus(level);
        let skipped = steps_over(empty, ends, stepped, lower, above);
        m = with_level(
            m,
            &reach,
            &loops.behind,
            level.minus(loops.names),
            level.both(loops.leaders),
            skipped,
        );
        stepped = stepped.union(rows_of(follows, level));
        lower = lower.union(level);
        higher = above;
    }
    m
}
