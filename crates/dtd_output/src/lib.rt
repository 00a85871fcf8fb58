// What the program prints for a book: its whole DTD, or why it was refused.
#![tactic(auto)]

ghost use Rattle.std.specs.Prelude.{◌≡◌, cond, ◌+◌, ◌/◌, ◌≤◌, ltb, length};
ghost use Rattle.book.specs.Taken.{taken_book};
ghost use Rattle.byte_buffer.specs.Put.{Put};
ghost use Rattle.intake_dtd.specs.Dtd.{longest_dtd};
ghost use Rattle.dtd_output.specs.Output.{refused_text, output_of};

use byte_buffer::{put_all, put_some};
use intake_dtd::write_dtd;
use refusal::Refusal;

// The digit of the tens, or 0 where there is none.
fn tens(n: u8) -> u8
    ensures { result ≡ cond (ltb n 10) 0 (48 + n / 10) }
{
    if n < 10 { 0 } else { 48 + n / 10 }
}

// `refused ` and the number.
fn put_refused(out: &mut [u8], refusal: Refusal) -> usize
    requires { longest_dtd ≤ length out.old }
    ensures { Put out.old 0 (refused_text refusal) result out.new }
{
    let number = refusal::number(refusal);
    let word = put_all(out, 0, b"refused ");
    let first = put_some(out, word, tens(number));
    let last = put_some(out, first, 48 + number % 10);
    put_some(out, last, b'\n')
}

// All output for any bytes as the book, into a buffer that has room for the longest DTD.
pub fn put_output(out: &mut [u8], bytes: &[u8]) -> usize
    requires { longest_dtd ≤ length out.old }
    ensures { Put out.old 0 (output_of (taken_book bytes.now)) result out.new × (result ≤ length out.new) }
{
    match write_dtd(bytes, out) {
        Ok(length) => length,
        Err(refusal) => put_refused(out, refusal),
    }
}
