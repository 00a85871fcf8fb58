// Follow facts of words: which names may start a word, which may end one, which follow which, and whether a word is
// empty.
#![tactic(auto)]

ghost use Rattle.std.specs.Prelude.{◌≡◌, true, ◌||◌};
ghost use Rattle.nameset.specs.Places.{places};
ghost use Rattle.nameset.specs.Rows.{IsRows};
ghost use Rattle.book.specs.Book.{all_below};
ghost use Rattle.follow.specs.Follow.{is_empty};
ghost use Rattle.follow.specs.Adding.{with_first, with_last, with_pairs, with_word};

use nameset::{NameSet, ROWS, put_row, row_at};

// Row a of `follows` keeps the names that follow a.
#[derive(Clone, Copy)]
pub struct Facts {
    pub starts: NameSet,
    pub ends: NameSet,
    pub follows: [u64; ROWS],
    pub empty: bool,
}

// The set with the first name of a word put in.
pub fn with_first(names: NameSet, word: &[u8]) -> NameSet
    requires { all_below places word.now ≡ true }
    ensures { result ≡ with_first names word.now }
{
    match word.first() {
        Some(&a) => names.with(usize::from(a)),
        None => names,
    }
}

// The set with the last name of a word put in.
pub fn with_last(names: NameSet, word: &[u8]) -> NameSet
    requires { all_below places word.now ≡ true }
    ensures { result ≡ with_last names word.now }
{
    match word.last() {
        Some(&a) => names.with(usize::from(a)),
        None => names,
    }
}

// Whether there was an empty word before, or this one is empty.
pub fn or_empty(empty: bool, word: &[u8]) -> bool
    ensures { result ≡ (empty || is_empty word.now) }
{
    empty || word.is_empty()
}

// Puts each pair of neighbours of a word into the rows.
pub fn add_pairs(rows: &mut [u64], word: &[u8])
    requires { IsRows places rows.old × (all_below places word.now ≡ true) }
    ensures { (rows.new ≡ with_pairs rows.old word.now) × IsRows places rows.new }
{
    let Some((&first, others)) = word.split_first() else {
        return;
    };
    let mut a = usize::from(first);
    for &next in others {
        let b = usize::from(next);
        let names = row_at(rows, a).with(b);
        put_row(rows, a, names);
        a = b;
    }
}

// The facts with a word added.
pub fn add_word(facts: Facts, word: &[u8]) -> Facts
    requires { all_below places word.now ≡ true }
    ensures { result ≡ with_word facts word.now }
{
    let mut rows = facts.follows;
    add_pairs(&mut rows, word);
    Facts {
        starts: with_first(facts.starts, word),
        ends: with_last(facts.ends, word),
        follows: rows,
        empty: or_empty(facts.empty, word),
    }
}
