// The book: where its names and blocks stand.
#![tactic(auto)]

use nameset::PLACES;

// The bytes of a block before its children, and where among them the text byte and the number of the children stand.
pub const HEAD_SIZE: usize = 3;

pub const TEXT_AT: usize = 1;

pub const CHILD_COUNT_AT: usize = 2;

// Where the parts of a book stand.
#[derive(Clone, Copy)]
pub struct Layout {
    // how many names there are: paper 01's N
    pub names: usize,
    // the offset of each name's length byte, by the name's number; 0 from N on
    pub offsets: [u16; PLACES],
    // where the first block stands
    pub body: usize,
    // how many blocks there are: paper 01's M
    pub blocks: usize,
}
