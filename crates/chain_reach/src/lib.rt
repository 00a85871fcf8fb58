// What each name reaches, as rows of words, by the follow rows: one name after the other is closed, and a name that is
// closed stands for all that it reaches.
#![tactic(auto)]

ghost use Rattle.std.specs.Prelude.{◌≡◌, ◌≤◌, ◌<◌};
ghost use Rattle.nameset.specs.Places.{places};
ghost use Rattle.nameset.specs.Rows.{IsRows};
ghost use Rattle.follow.specs.Follow.{Follow};
ghost use Rattle.chain_rows.specs.Rows.{OnlyNames};
ghost use Rattle.chain_reach.specs.Reached.{Edges, Reached, Closed, ReachOf, in_turn};

use chain_rows::pick;
use nameset::{NameSet, ROWS, put_row, row_at};

// What a reaches: each name that follows a or one gathered is gathered in turn, with what is known of it. The rows of
// closed names are whole, so these come first; those of others are empty.
fn reach_of(follows: &[u64], rows: &[u64], closed: NameSet, a: usize) -> NameSet
    requires { (a < places) × IsRows places follows.now × Closed follows.now rows.now }
    ensures { ReachOf follows.now a result }
{
    let mut gathered = NameSet::empty();
    let mut left = row_at(follows, a);
    // No `for` over the names: each turn adds some to those that are left.
    while !left.is_empty() {
        let b = pick(left, closed);
        gathered = gathered.union(row_at(rows, b).with(b));
        left = left.union(row_at(follows, b)).minus(gathered);
    }
    gathered
}

// Whether most of the first n names lead to larger names alone.
fn mostly_up(follows: &[u64], n: usize) -> bool
    requires { (n ≤ places) × IsRows places follows.now }
{
    let up = (0..n).filter(|a| *a < row_at(follows, *a).first()).count();
    n < up + up
}

#[tactic(auto, unfolding(crate::specs::Reached::in_turn))]
fn in_turn(down: bool, n: usize, i: usize) -> usize
    requires { i < n }
    ensures { (result ≡ in_turn down n i) × (result < n) }
{
    if down { n - 1 - i } else { i }
}

// What each name reaches: so it is for any facts of which these rows keep the steps between names. A name is best
// closed after those that it leads to.
pub fn reach_rows(follows: &[u64], n: usize) -> [u64; ROWS]
    requires { (n ≤ places) × OnlyNames n follows.now }
    ensures { (f : Follow) → Edges f n follows.now → Reached f result }
{
    let down = mostly_up(follows, n);
    let mut rows = [0u64; ROWS];
    let mut closed = NameSet::empty();
    for i in 0..n {
        let a = in_turn(down, n, i);
        let row = reach_of(follows, &rows, closed, a);
        put_row(&mut rows, a, row);
        closed = closed.with(a);
    }
    rows
}
