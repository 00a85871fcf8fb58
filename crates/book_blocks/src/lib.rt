// The blocks of a book, checked one after the other; and what a call needs of them, gathered in the same pass.
#![tactic(auto)]

ghost use Rattle.std.specs.Prelude.{ℕ, ◌≡◌, true, List, [], ◌∷◌, ◌++◌, ◌≤◌, ◌<◌, length, drop};
ghost use Rattle.nameset.specs.Places.{places};
ghost use Rattle.nameset.specs.Set.{empty, below};
ghost use Rattle.book.specs.Book.{longest_book, all_below, Block, block_of, blocks_of};
ghost use Rattle.book_blocks.specs.Tables.{block_step, blocks_end};
ghost use Rattle.book_blocks.specs.Gathers.{Gathers, blocks_from, GathersAll, KeepsMore};

use book::{CHILD_COUNT_AT, HEAD_SIZE, TEXT_AT};
use book_bytes::{all_below, part, wide};
use book_unused::without_block;
use nameset::NameSet;
use refusal::Refusal;

// Where the last block ends, and the names that no block uses.
#[derive(Clone, Copy)]
pub struct BlocksEnd {
    pub at: usize,
    pub unused: NameSet,
}

// The number of children of the block at a place, or why the call stops there.
pub fn block_at(bytes: &[u8], n: usize, at: usize) -> Result<usize, Refusal>
    requires { length bytes.now ≤ longest_book }
    ensures { result ≡ block_step (block_of n (drop at bytes.now)) }
{
    if bytes.len() <= at {
        return Err(Refusal::BytesMissing);
    }
    if n <= wide(bytes[at]) {
        return Err(Refusal::NumberNotBelow);
    }
    let text = at + TEXT_AT;
    let count = at + CHILD_COUNT_AT;
    if bytes.len() <= text {
        return Err(Refusal::BytesMissing);
    }
    if 1 < bytes[text] {
        return Err(Refusal::BadText);
    }
    if bytes.len() <= count {
        return Err(Refusal::BytesMissing);
    }
    let size = wide(bytes[count]);
    let from = at + HEAD_SIZE;
    if bytes.len() - from < size {
        return Err(Refusal::BytesMissing);
    }
    if all_below(part(bytes, from, from + size), n) {
        Ok(size)
    } else {
        Err(Refusal::NumberNotBelow)
    }
}

// What a call gathers from the blocks, in a buffer of words.
pub trait Gather {
    // The words of a buffer keep what these blocks show.
    ghost keeps: { Self → List Block → List ℕ → Type 0 };

    // So many words a buffer has.
    ghost size: { ℕ };

    // Adds a block: a buffer that kept the blocks before it then keeps this one too.
    fn add_block(&self, words: &mut [u64], parent: usize, text: u8, word: &[u8])
        requires { (length words.old ≡ size) × (parent < places) × (all_below places word.now ≡ true) }
        ensures { KeepsMore (keeps self.now) (record { parent = parent; text = text; word = word.now }) words.old words.new };
}

// Nothing is gathered: the blocks are only checked.
#[derive(Clone, Copy)]
pub struct Nothing;

impl Gather for Nothing {
    ghost keeps = { λ _ _ _. Unit {0} };

    ghost size = { 0 };

    fn add_block(&self, _words: &mut [u64], _parent: usize, _text: u8, _word: &[u8]) {}
}

// The block at a place, checked; in the same step it is added to what is gathered. A buffer that kept the blocks before
// it then keeps this one too.
#[inline(always)]
pub fn gather_block<G: Gather>(
    bytes: &[u8],
    n: usize,
    at: usize,
    what: &G,
    words: &mut [u64],
) -> Result<usize, Refusal>
    requires { (length bytes.now ≤ longest_book) × (n ≤ places) × (length words.old ≡ G.size) }
    ensures step { result ≡ block_step (block_of n (drop at bytes.now)) }
    ensures gathers { Gathers (G.keeps what.now) (block_of n (drop at bytes.now)) words.old words.new }
{
    let size = block_at(bytes, n, at)?;
    let from = at + HEAD_SIZE;
    what.add_block(
        words,
        wide(bytes[at]),
        bytes[at + TEXT_AT],
        part(bytes, from, from + size),
    );
    Ok(size)
}

// The m blocks from a place on, where no name is left that no block uses.
fn gather_rest<G: Gather>(
    bytes: &[u8],
    n: usize,
    m: usize,
    from: usize,
    what: &G,
    words: &mut [u64],
) -> Result<BlocksEnd, Refusal>
    requires { (from ≤ length bytes.now) × (length bytes.now ≤ longest_book) × (n ≤ places) × (length words.old ≡ G.size) }
    ensures end { result ≡ blocks_end from empty (blocks_of n m (drop from bytes.now)) }
    ensures gathers { GathersAll (G.keeps what.now) (blocks_from n m (drop from bytes.now)) words.old words.new }
{
    let mut at = from;
    for _ in 0..m {
        let size = gather_block(bytes, n, at, what, words)?;
        at = at + HEAD_SIZE + size;
    }
    Ok(BlocksEnd {
        at,
        unused: NameSet::empty(),
    })
}

// The m blocks from a place on, over n names, and which of the names they do not use. Once all are used, the others are
// read without a look at their names: in most books after a few blocks. One loop with a test for each block would be
// plainer; it takes up to a fifth more time where blocks are short.
pub fn gather_blocks<G: Gather>(
    bytes: &[u8],
    n: usize,
    m: usize,
    from: usize,
    what: &G,
    words: &mut [u64],
) -> Result<BlocksEnd, Refusal>
    requires { (from ≤ length bytes.now) × (length bytes.now ≤ longest_book) × (0 < n) × (n ≤ places) × (length words.old ≡ G.size) }
    ensures end { result ≡ blocks_end from (below n) (blocks_of n m (drop from bytes.now)) }
    ensures gathers { GathersAll (G.keeps what.now) (blocks_from n m (drop from bytes.now)) words.old words.new }
{
    let mut at = from;
    let mut unused = NameSet::below(n);
    for done in 0..m {
        if unused.is_empty() {
            return gather_rest(bytes, n, m - done, at, what, words);
        }
        let size = gather_block(bytes, n, at, what, words)?;
        unused = without_block(unused, bytes, at, size);
        at = at + HEAD_SIZE + size;
    }
    Ok(BlocksEnd { at, unused })
}
