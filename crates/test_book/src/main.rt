// Reads cases from standard input and prints a line for each. A case is a label, a book and a text, each behind its
// length in three bytes, the low one first. The line has the label, the refusal's number (0 for none), N, M, the number
// of the name that is the text (or -), and each block as its parent, its text byte and the number of its children, with
// colons between them.
#![tactic(auto)]

ghost use Rattle.std.specs.Prelude.{◌≤◌, length};
ghost use Rattle.book.specs.Book.{longest_book};
ghost use Rattle.book.specs.Access.{LaidOut};

use book::{HEAD_SIZE, Layout, TEXT_AT};
use book_blocks::block_at;
use book_bytes::wide;
use std::io;

fn print_found(rt: &impl Print, found: Option<usize>) -> io::Result<()> {
    match found {
        Some(i) => test_lines::print_number(rt, i),
        None => test_lines::print(rt, b"-"),
    }
}

// Each block's parent, text byte and number of children.
fn print_blocks(rt: &impl Print, bytes: &[u8], layout: Layout) -> io::Result<()>
    requires { length bytes.now ≤ longest_book }
{
    let mut at = layout.body;
    for _ in 0..layout.blocks {
        match block_at(bytes, layout.names, at) {
            Ok(size) => {
                print_block(rt, wide(bytes[at]), wide(bytes[at + TEXT_AT]), size)?;
                at = at + HEAD_SIZE + size;
            }
            Err(_) => {
                return Ok(());
            }
        }
    }
    Ok(())
}

fn print_block(rt: &impl Print, parent: usize, text: usize, children: usize) -> io::Result<()> {
    print!(rt; " {parent}:{text}:{children}")
}

fn print_head(
    rt: &impl Print,
    label: &[u8],
    refusal: u8,
    names: usize,
    blocks: usize,
) -> io::Result<()> {
    test_lines::print(rt, label)?;
    print!(rt; ": {refusal} {names} {blocks}")
}

fn print_case(rt: &impl Print, label: &[u8], bytes: &[u8], text: &[u8]) -> io::Result<()> {
    match book_reading::take_book(bytes) {
        Ok(layout) => {
            print_head(rt, label, 0, layout.names, layout.blocks)?;
            print_rest(rt, bytes, layout, text)?;
        }
        Err(refusal) => print_head(rt, label, refusal::number(refusal), 0, 0)?,
    }
    println!(rt)
}

fn print_rest(rt: &impl Print, bytes: &[u8], layout: Layout, text: &[u8]) -> io::Result<()>
    requires { LaidOut bytes.now layout }
{
    print!(rt; " ")?;
    print_found(rt, book_access::find_name(bytes, layout, text))?;
    print_blocks(rt, bytes, layout)
}

// Where the field that begins at a place ends, or the stream's length where it is cut short.
fn field_end(stream: &[u8], at: usize) -> usize
    ensures { result ≤ length stream.now }
{
    if stream.len() <= at {
        return stream.len();
    }
    if stream.len() - at < 3 {
        return stream.len();
    }
    let size = wide(stream[at]) + 256 * wide(stream[at + 1]) + 65536 * wide(stream[at + 2]);
    if stream.len() - at - 3 < size {
        return stream.len();
    }
    at + 3 + size
}

// The bytes of a field, behind its three bytes of length.
fn field(stream: &[u8], at: usize, end: usize) -> &[u8]
    requires { end ≤ length stream.now }
{
    if end < 3 {
        return &stream[end..end];
    }
    if end - 3 < at {
        return &stream[end..end];
    }
    let from = at + 3;
    &stream[from..end]
}

fn run(rt: &impl Print, stream: &[u8]) -> io::Result<()> {
    let mut at = 0;
    while at < stream.len() {
        let label = field_end(stream, at);
        let bytes = field_end(stream, label);
        let text = field_end(stream, bytes);
        print_case(
            rt,
            field(stream, at, label),
            field(stream, label, bytes),
            field(stream, bytes, text),
        )?;
        if text <= at {
            return Ok(());
        }
        at = text;
    }
    Ok(())
}

fn main(rt: HostRuntime) -> io::Result<()> {
    let stream = test_lines::read_input(&rt)?;
    run(&rt, &stream)
}
