// Declarations read by a book of five names: one line with a book that is cut short, one with a book that does not use
// a name, then each line of standard input with the whole book. In a line the byte 1F stands for a line feed. Each line
// of output has the refusal's number, the parent's number, the count of factors, the text byte, the factor of each of
// the five names, the mode of each of the first five factors, and the text between `[` and `]`.
// `tests/reading_cases.py` has the texts and what is due of each.
#![tactic(auto)]

use declaration_spelling::Declared;
use model::Model;
use refusal::Refusal;
use std::io;

// How many names the book has.
const NAMES: usize = 5;

// What stands for a line feed in a line of standard input.
const FEED: u8 = 0x1f;

// The names EMPTY, a, b, c and d, and one block: EMPTY with the children a, b, c and d.
fn small_book() -> [u8; 25] {
    [
        5, 0, 5, b'E', b'M', b'P', b'T', b'Y', 1, b'a', 1, b'b', 1, b'c', 1, b'd', 1, 0, 0, 0, 4,
        1, 2, 3, 4,
    ]
}

// The same without its last byte.
fn cut_book() -> [u8; 24] {
    [
        5, 0, 5, b'E', b'M', b'P', b'T', b'Y', 1, b'a', 1, b'b', 1, b'c', 1, b'd', 1, 0, 0, 0, 4,
        1, 2, 3,
    ]
}

// The same names, and one block that does not use d: EMPTY with the children a, b and c.
fn unused_book() -> [u8; 24] {
    [
        5, 0, 5, b'E', b'M', b'P', b'T', b'Y', 1, b'a', 1, b'b', 1, b'c', 1, b'd', 1, 0, 0, 0, 3,
        1, 2, 3,
    ]
}

// One line.
fn tell(rt: &impl Print, read: Result<Declared, Refusal>, text: &[u8]) -> io::Result<()> {
    let number = refusal::answer_number(&read);
    let due = Declared {
        parent: 0,
        model: Model::empty(),
    };
    let Declared { parent, model } = read.unwrap_or(due);
    let count = model.chain.count;
    let has_text = model.text;
    print!(rt; "{number} {parent} {count} {has_text} | ")?;
    test_lines::print_row(rt, &model.chain.factor, NAMES)?;
    print!(rt; "| ")?;
    test_lines::print_row(rt, &model.chain.mode, NAMES)?;
    test_lines::print_text(rt, text)
}

fn tell_cut(rt: &impl Print, text: &[u8]) -> io::Result<()> {
    let book = cut_book();
    tell(rt, declaration_reading::read_declaration(&book, text), text)
}

fn tell_unused(rt: &impl Print, text: &[u8]) -> io::Result<()> {
    let book = unused_book();
    tell(rt, declaration_reading::read_declaration(&book, text), text)
}

fn instead(byte: u8, old: u8, new: u8) -> u8 {
    if byte == old { new } else { byte }
}

// One byte for another, wherever it stands.
fn replace(line: &mut [u8], old: u8, new: u8) {
    for byte in line.iter_mut() {
        *byte = instead(*byte, old, new);
    }
}

// A line: read with line feeds, printed as it came.
fn tell_line(rt: &impl Print, line: &mut [u8]) -> io::Result<()> {
    let book = small_book();
    replace(line, FEED, b'\n');
    let read = declaration_reading::read_declaration(&book, line);
    replace(line, b'\n', FEED);
    tell(rt, read, line)
}

fn tell_lines(rt: &impl Print, text: &mut [u8]) -> io::Result<()> {
    let mut i = 0;
    while i < text.len() {
        let next = test_lines::next_line(text, i);
        tell_line(rt, &mut text[i..next - 1])?;
        i = next;
    }
    Ok(())
}

fn main(rt: HostRuntime) -> io::Result<()> {
    tell_cut(&rt, b"<!ELEMENT a (b)>")?;
    tell_unused(&rt, b"<!ELEMENT a (b")?;
    let mut text = test_lines::read_input(&rt)?;
    tell_lines(&rt, &mut text)
}
