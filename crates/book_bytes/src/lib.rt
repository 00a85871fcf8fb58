// What the bytes at a place of a book say: a byte, a count, a part; and whether each number of a word is below n.
#![tactic(auto)]

ghost use Rattle.std.specs.Prelude.{◌≡◌, ◌+◌, ◌-◌, ◌≤◌, ◌<◌, length, take, drop};
ghost use Rattle.book.specs.Field.{count_size, count_at};
ghost use Rattle.book.specs.Book.{all_below};

use byte_row::largest_from;

// The bytes of a count.
pub const COUNT_SIZE: usize = 2;

pub fn wide(byte: u8) -> usize
    ensures { (result ≡ byte) × (result < 256) }
{
    usize::from(byte)
}

// The count at a place, the low byte first.
pub fn count_at(bytes: &[u8], at: usize) -> usize
    requires { at + count_size ≤ length bytes.now }
    ensures { (result ≡ count_at bytes.now at) × (result < 65536) }
{
    usize::from(u16::from_le_bytes([bytes[at], bytes[at + 1]]))
}

// The bytes from one place up to another.
pub fn part(bytes: &[u8], from: usize, to: usize) -> &[u8]
    requires { (from ≤ to) × (to ≤ length bytes.now) }
    ensures { result.now ≡ take (to - from) (drop from bytes.now) }
{
    &bytes[from..to]
}

// Whether each number of a word is below n.
#[tactic(auto, using(crate::proofs::Below::judged))]
pub fn all_below(word: &[u8], n: usize) -> bool
    requires { 0 < n }
    ensures { result ≡ all_below n word.now }
{
    usize::from(largest_from(word, 0)) < n
}
