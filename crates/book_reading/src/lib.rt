// A book read: its head, its blocks, its end.
#![tactic(auto)]

ghost use Rattle.std.specs.Prelude.{◌≡◌, length};
ghost use Rattle.book.specs.Layout.{reading_of};
ghost use Rattle.book.specs.Taken.{taken_book};
ghost use Rattle.book_reading.specs.Opening.{head_of, opening_of, closing};

use book::Layout;
use book_blocks::{BlocksEnd, Nothing, gather_blocks};
use book_bytes::{COUNT_SIZE, count_at};
use book_names::name_section;
use refusal::Refusal;

// The most bytes that a book has.
pub const LONGEST: usize = 60000;

// What comes before the first block: the names, and the count of blocks.
pub fn open_book(bytes: &[u8]) -> Result<Layout, Refusal>
    ensures { result ≡ opening_of (head_of bytes.now) }
{
    if LONGEST < bytes.len() {
        return Err(Refusal::BookTooLong);
    }
    let table = name_section(bytes)?;
    let end = table.end;
    if bytes.len() - end < COUNT_SIZE {
        return Err(Refusal::BytesMissing);
    }
    let offsets = table.offsets;
    Ok(Layout {
        names: table.names,
        offsets,
        body: end + COUNT_SIZE,
        blocks: count_at(bytes, end),
    })
}

// The end of a book whose blocks were read: one of them was refused, bytes are left over, a name is unused, or all is
// well.
pub fn close_book(
    bytes: &[u8],
    layout: Layout,
    blocks: Result<BlocksEnd, Refusal>,
) -> Result<Layout, Refusal>
    ensures { result ≡ closing (length bytes.now) layout blocks }
{
    let end = blocks?;
    if end.at < bytes.len() {
        Err(Refusal::BytesLeftOver)
    } else if end.unused.is_empty() {
        Ok(layout)
    } else {
        Err(Refusal::UnusedName)
    }
}

// The book as every call takes it, of any bytes whatever: read from its first byte to its last, then checked as a whole.
// What that check needs is gathered while the blocks are read.
pub fn take_book(bytes: &[u8]) -> Result<Layout, Refusal>
    ensures { result ≡ reading_of (taken_book bytes.now) }
{
    let layout = open_book(bytes)?;
    let blocks = gather_blocks(
        bytes,
        layout.names,
        layout.blocks,
        layout.body,
        &Nothing,
        &mut [],
    );
    close_book(bytes, layout, blocks)
}
