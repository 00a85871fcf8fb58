// A word added to follow facts that are lent by `&mut`, over `follow::add_word`.
#![tactic(auto)]

ghost use Rattle.std.specs.Prelude.{◌≡◌, true};
ghost use Rattle.nameset.specs.Places.{places};
ghost use Rattle.book.specs.Book.{all_below};
ghost use Rattle.follow.specs.Adding.{with_word};

use follow::Facts;

// Adds a word to the facts that are lent: they change only by what that word shows (paper 01).
pub fn add_word_to(facts: &mut Facts, word: &[u8])
    requires { all_below places word.now ≡ true }
    ensures { facts.new ≡ with_word facts.old word.now }
{
    *facts = follow::add_word(*facts, word);
}

// The facts with a word added, by value: a local is lent to `add_word_to` and handed back.
pub fn after_word(facts: Facts, word: &[u8]) -> Facts
    requires { all_below places word.now ≡ true }
    ensures { result ≡ with_word facts word.now }
{
    let mut held = facts;
    add_word_to(&mut held, word);
    held
}
