// A book read, and the follow facts of one parent gathered while it is read, with whether it has text: the blocks are
// gone through once.
#![tactic(auto)]

ghost use Rattle.std.specs.Prelude.{◌≡◌, [], length};
ghost use Rattle.book.specs.Layout.{reading_of};
ghost use Rattle.book.specs.Taken.{taken_book};
ghost use Rattle.book_reading.specs.Opening.{blocks_read};
ghost use Rattle.follow_row.specs.Row.{row_size, RowKeeps};

use book::Layout;
use book_blocks::{Gather, gather_blocks};
use book_reading::{close_book, open_book};
use follow_row::add_to_row;
use refusal::Refusal;

// What the blocks show of one parent, gathered in a row.
#[derive(Clone, Copy)]
struct OneParent {
    number: usize,
}

impl Gather for OneParent {
    ghost keeps = { λ s. RowKeeps s.number };

    ghost size = { row_size };

    // A block of another parent is left out.
    fn add_block(&self, row: &mut [u64], parent: usize, text: u8, word: &[u8]) {
        if parent == self.number {
            add_to_row(row, text, word);
        }
    }
}

// The book as every call takes it, of any bytes whatever. The row, which keeps nothing before, then keeps what the
// blocks that were read show of the parent: all blocks of a book that is not refused.
pub fn take_parent(bytes: &[u8], parent: usize, row: &mut [u64]) -> Result<Layout, Refusal>
    requires { RowKeeps parent [] row.old }
    ensures { (result ≡ reading_of (taken_book bytes.now))
        × RowKeeps parent (blocks_read bytes.now) row.new }
{
    let layout = open_book(bytes)?;
    let blocks = gather_blocks(
        bytes,
        layout.names,
        layout.blocks,
        layout.body,
        &OneParent { number: parent },
        row,
    );
    close_book(bytes, layout, blocks)
}
