// The names that no block has used so far: a set from which each block takes its own.
#![tactic(auto)]

ghost use Rattle.std.specs.Prelude.{◌≡◌, true, ◌+◌, ◌≤◌, ◌<◌, length};
ghost use Rattle.nameset.specs.Places.{places};
ghost use Rattle.book.specs.Book.{longest_book, all_below};
ghost use Rattle.book.specs.Bytes.{head_size};
ghost use Rattle.book_unused.specs.Unused.{without_word, without_block, block_at};

use book::HEAD_SIZE;
use nameset::NameSet;

// A set without the numbers of a word.
fn without_word(set: NameSet, word: &[u8]) -> NameSet
    requires { all_below places word.now ≡ true }
    ensures { result ≡ without_word set word.now }
{
    let mut left = set;
    for &name in word {
        left = left.without(usize::from(name));
    }
    left
}

// A set without the names that a block uses, its parent and its children.
pub fn without_block(set: NameSet, bytes: &[u8], at: usize, size: usize) -> NameSet
    requires { (length bytes.now ≤ longest_book) × (at + head_size + size ≤ length bytes.now)
        × ((block_at bytes.now at size).parent < places) × (all_below places (block_at bytes.now at size).word ≡ true) }
    ensures { result ≡ without_block set (block_at bytes.now at size) }
{
    let from = at + HEAD_SIZE;
    let parent = usize::from(bytes[at]);
    without_word(set.without(parent), &bytes[from..from + size])
}
