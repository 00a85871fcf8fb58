// A book read, and the follow facts of all its parents gathered while it is read, with whether each has text: the
// blocks are gone through once.
#![tactic(auto)]

ghost use Rattle.std.specs.Prelude.{◌≡◌, true, [], ◌<◌, length};
ghost use Rattle.nameset.specs.Places.{places};
ghost use Rattle.book.specs.Book.{all_below};
ghost use Rattle.book.specs.Layout.{reading_of};
ghost use Rattle.book.specs.Taken.{taken_book};
ghost use Rattle.book_reading.specs.Opening.{blocks_read};
ghost use Rattle.follow_row.specs.Row.{row_size};
ghost use Rattle.follow_table.specs.Table.{tabled, table_size, row_of, Keeps, Added};

use book::Layout;
use book_blocks::{Gather, gather_blocks};
use book_reading::{close_book, open_book};
use follow_row::{ROW, add_to_row};
use refusal::Refusal;

// A table serves books of up to so many names.
const TABLED: usize = 64;

// The words of a table: a row for each name.
pub const WORDS: usize = TABLED * ROW;

// The row of a parent.
pub fn row_of(table: &[u64], parent: usize) -> &[u64]
    requires { (length table.now ≡ table_size) × (parent < tabled) }
    ensures { (result.now ≡ row_of table.now parent) × (length result.now ≡ row_size) }
{
    let from = parent * ROW;
    let to = from + ROW;
    &table[from..to]
}

// Adds a block's text byte and word to the row of its parent.
fn add_to_table(table: &mut [u64], parent: usize, text: u8, word: &[u8])
    requires { (length table.old ≡ table_size) × (parent < tabled) × (all_below places word.now ≡ true) }
    ensures { Added table.old parent text word.now table.new }
{
    let from = parent * ROW;
    let to = from + ROW;
    add_to_row(&mut table[from..to], text, word);
}

// What the blocks show of every parent, gathered in a table. After each block that `gather_block` reads, the facts of
// every parent are those that the blocks so far show.
#[derive(Clone, Copy)]
pub struct EachParent;

impl Gather for EachParent {
    ghost keeps = { λ _. Keeps };

    ghost size = { table_size };

    fn add_block(&self, table: &mut [u64], parent: usize, text: u8, word: &[u8]) {
        add_to_table(table, parent, text, word);
    }
}

// The book as every call takes it, of any bytes whatever. The table, which keeps nothing before, then keeps what the
// blocks that were read show of every parent: all blocks of a book that is not refused.
pub fn take_table(bytes: &[u8], table: &mut [u64]) -> Result<Layout, Refusal>
    requires { Keeps [] table.old }
    ensures { (result ≡ reading_of (taken_book bytes.now))
        × Keeps (blocks_read bytes.now) table.new }
{
    let layout = open_book(bytes)?;
    let blocks = gather_blocks(
        bytes,
        layout.names,
        layout.blocks,
        layout.body,
        &EachParent,
        table,
    );
    close_book(bytes, layout, blocks)
}
