// Relations between names, kept as rows of words: row a has the names that a is related to.
#![tactic(auto)]

ghost use Rattle.std.specs.Prelude.{◌≡◌, true, false, ◌&&◌, ◌||◌, ℕ, ◌≤◌, ◌<◌, eqb};
ghost use Rattle.nameset.specs.Places.{places};
ghost use Rattle.nameset.specs.Set.{member, is_empty};
ghost use Rattle.nameset.specs.Rows.{IsRows};
ghost use Rattle.chain_peel.specs.Sets.{in_rows};
ghost use Rattle.chain_rows.specs.Rows.{in_row, Copied, among_rows};

use nameset::{NameSet, ROWS, row_at};

// The set s, with the name i if `more` says so.
pub fn with_if(s: NameSet, i: usize, more: bool) -> NameSet
    requires { i < places }
    ensures { (j : ℕ) → member result j ≡ (member s j || (more && eqb i j)) }
{
    if more { s.with(i) } else { s }
}

// A name of the set, one that is wanted too if there is any. Which one it is decides only about time, so this is no part
// of the promise.
pub fn pick(s: NameSet, wanted: NameSet) -> usize
    requires { is_empty s ≡ false }
    ensures { (result < places) × (member s result ≡ true) }
{
    let likely = s.both(wanted);
    if likely.is_empty() {
        s.first()
    } else {
        likely.first()
    }
}

// A copy of rows, made row by row: see `put_all` of byte_buffer.
pub fn copied(rows: &[u64]) -> [u64; ROWS]
    requires { IsRows places rows.now }
    ensures { Copied rows.now result }
{
    let mut out = [0u64; ROWS];
    for a in 0..ROWS {
        out[a] = rows[a];
    }
    out
}

// The names in the rows of the names of a set.
pub fn rows_of(rows: &[u64], set: NameSet) -> NameSet
    requires { IsRows places rows.now }
    ensures { (b : ℕ) → member result b ≡ in_rows places (in_row rows.now) (member set) b }
{
    let mut s = NameSet::empty();
    for a in set.names() {
        s = s.union(row_at(rows, a));
    }
    s
}

// The set s, with the names in the first n rows.
#[tactic(auto, using(crate::proofs::Laws::among_none, crate::proofs::Laws::among_more))]
pub fn with_rows(s: NameSet, rows: &[u64], n: usize) -> NameSet
    requires { (n ≤ places) × IsRows places rows.now }
    ensures { (b : ℕ) → member result b ≡ (member s b || among_rows n rows.now b) }
{
    let mut out = s;
    for i in 0..n {
        out = out.union(row_at(rows, i));
    }
    out
}
