// The call that writes the whole DTD of a book. It has no requirement: it says for every input what it answers.
#![tactic(auto)]

ghost use Rattle.intake_dtd.specs.Dtd.{WritesDtd};

use dtd_lines::{lines_exceed, put_lines};
use follow_table::{WORDS, take_table};
use refusal::Refusal;

// The most bytes that a DTD has: 64 declarations of 2,253 bytes, each with a line feed.
pub const LONGEST: usize = 144256;

// The call: any bytes as the book, any buffer. 1 to 7, 16, 17, then 12, else the declarations of all parents with a
// block. The blocks are gone through once, and the facts of a refused book are dropped.
pub fn write_dtd(bytes: &[u8], buffer: &mut [u8]) -> Result<usize, Refusal>
    ensures { WritesDtd bytes.now result buffer.old buffer.new }
{
    let mut table = [0u64; WORDS];
    let layout = take_table(bytes, &mut table)?;
    if lines_exceed(bytes, layout, &table, buffer.len()) {
        return Err(Refusal::BufferTooShort);
    }
    Ok(put_lines(buffer, bytes, layout, &table))
}
