// Declarations written into buffers of many lengths. Each line has the number of the outcome, the length, and the
// buffer: a dot where nothing was written.
#![tactic(auto)]

ghost use Rattle.std.specs.Prelude.{◌<◌, ◌^◌};

use model::{Chain, Model};
use refusal::Refusal;
use std::io;

// The names a, b and c, and one block: a with the children b and c.
fn small_book() -> [u8; 15] {
    [3, 0, 1, b'a', 1, b'b', 1, b'c', 1, 0, 0, 0, 2, 1, 2]
}

// The same without its last byte.
fn cut_book() -> [u8; 14] {
    [3, 0, 1, b'a', 1, b'b', 1, b'c', 1, 0, 0, 0, 2, 1]
}

// The same names, and one block that does not use c: a with the child b.
fn unused_book() -> [u8; 14] {
    [3, 0, 1, b'a', 1, b'b', 1, b'c', 1, 0, 0, 0, 1, 1]
}

fn empty() -> Chain {
    Chain {
        count: 0,
        factor: [255u8; 64],
        mode: [0u8; 64],
    }
}

// The chain (b) with a mode.
fn one_name(own: u8) -> Chain {
    let mut factor = [255u8; 64];
    let mut mode = [0u8; 64];
    factor[1] = 0;
    mode[0] = own;
    Chain {
        count: 1,
        factor,
        mode,
    }
}

// The chain (a|b) with a mode.
fn two_names(own: u8) -> Chain {
    let mut factor = [255u8; 64];
    let mut mode = [0u8; 64];
    factor[0] = 0;
    factor[1] = 0;
    mode[0] = own;
    Chain {
        count: 1,
        factor,
        mode,
    }
}

// The chain ((a|c)*,b+).
fn two_factors() -> Chain {
    let mut factor = [255u8; 64];
    let mut mode = [0u8; 64];
    factor[0] = 0;
    factor[2] = 0;
    factor[1] = 1;
    mode[0] = 3;
    mode[1] = 2;
    Chain {
        count: 2,
        factor,
        mode,
    }
}

// 64 names in 32 pairs, each with a mark: the longest chain there is.
fn pairs() -> Chain {
    let mut factor = [255u8; 64];
    let mut mode = [0u8; 64];
    for i in 0..32 {
        factor[i * 2] = i as u8;
        factor[i * 2 + 1] = i as u8;
        mode[i] = 1;
    }
    Chain {
        count: 32,
        factor,
        mode,
    }
}

// A chain with a text byte.
fn model(chain: Chain, text: u8) -> Model {
    Model { chain, text }
}

// One line: how the call ended, and the whole buffer.
fn report(rt: &impl Print, written: Result<usize, Refusal>, buffer: &[u8]) -> io::Result<()> {
    let number = refusal::answer_number(&written);
    let length = written.unwrap_or(0);
    print!(rt; "{number} {length} ")?;
    test_lines::print(rt, buffer)?;
    println!(rt)
}

// A declaration written into a buffer of N bytes.
fn write_in<const N: usize>(rt: &impl Print, book: &[u8], parent: usize, m: Model) -> io::Result<()>
    requires { N < 2 ^ 63 }
{
    let mut buffer = [b'.'; N];
    let written = declaration_writing::write_declaration(book, parent, m, &mut buffer);
    report(rt, written, &buffer)
}

// The declaration fits, or it does not.
fn written_cases(rt: &impl Print) -> io::Result<()> {
    let book = small_book();
    write_in::<40>(rt, &book, 0, model(empty(), 0))?;
    write_in::<40>(rt, &book, 2, model(one_name(1), 0))?;
    write_in::<17>(rt, &book, 2, model(one_name(1), 0))
}

fn short_cases(rt: &impl Print) -> io::Result<()> {
    let book = small_book();
    write_in::<16>(rt, &book, 2, model(one_name(1), 0))?;
    write_in::<40>(rt, &book, 1, model(two_factors(), 0))
}

// Text and no name.
fn text_cases(rt: &impl Print) -> io::Result<()> {
    let book = small_book();
    write_in::<40>(rt, &book, 0, model(empty(), 1))?;
    write_in::<16>(rt, &book, 0, model(empty(), 1))
}

// Text among names, and the same names without text.
fn mixed_cases(rt: &impl Print) -> io::Result<()> {
    let book = small_book();
    write_in::<40>(rt, &book, 2, model(one_name(3), 1))?;
    write_in::<40>(rt, &book, 2, model(two_names(3), 1))?;
    write_in::<40>(rt, &book, 2, model(two_names(3), 0))
}

// Text beside two factors, beside a factor without a star, and a text byte of 2.
fn bad_text_cases(rt: &impl Print) -> io::Result<()> {
    let book = small_book();
    write_in::<40>(rt, &book, 1, model(two_factors(), 1))?;
    write_in::<40>(rt, &book, 2, model(two_names(2), 1))?;
    write_in::<40>(rt, &book, 2, model(two_names(3), 2))
}

// 8 before 10, 10 before 12.
fn parent_cases(rt: &impl Print) -> io::Result<()> {
    let book = small_book();
    write_in::<40>(rt, &book, 3, model(two_factors(), 0))?;
    write_in::<40>(rt, &book, 256, model(two_factors(), 0))?;
    write_in::<16>(rt, &book, 3, model(pairs(), 0))
}

fn record_cases(rt: &impl Print) -> io::Result<()> {
    let book = small_book();
    write_in::<16>(rt, &book, 0, model(pairs(), 0))?;
    write_in::<16>(rt, &book, 0, model(empty(), 2))
}

// The book is checked first.
fn book_cases(rt: &impl Print) -> io::Result<()> {
    let cut = cut_book();
    write_in::<16>(rt, &cut, 3, model(pairs(), 0))?;
    let unused = unused_book();
    write_in::<16>(rt, &unused, 3, model(pairs(), 0))
}

// The longest declaration, in a buffer that is one byte short, one that it fills, and a longer one.
fn main(rt: HostRuntime) -> io::Result<()> {
    written_cases(&rt)?;
    short_cases(&rt)?;
    text_cases(&rt)?;
    mixed_cases(&rt)?;
    bad_text_cases(&rt)?;
    parent_cases(&rt)?;
    record_cases(&rt)?;
    book_cases(&rt)?;
    let book = test_lines::read_input(&rt)?;
    write_in::<2252>(&rt, &book, 63, model(pairs(), 0))?;
    write_in::<2253>(&rt, &book, 63, model(pairs(), 0))?;
    write_in::<2260>(&rt, &book, 63, model(pairs(), 0))
}
