// What the test programs share: standard input, the lines of a text, and the parts of a line that they print.
#![tactic(auto)]

ghost use Rattle.std.specs.Prelude.{◌≡◌, ◌==◌, not, ◌+◌, ◌-◌, ◌≤◌, ◌<◌, length, drop};
ghost use Rattle.std.specs.List.{prefix_len};
ghost use Rattle.std.specs.Iterator.{at_most};
ghost use Rattle.test_lines.specs.Lines.{first_line, line_end};
ghost use Rattle.test_lines.specs.Turns.{Steps};

use std::io;
use std::io::Read;

// All of standard input.
pub fn read_input<R: Input + AllocGlobal>(rt: &R) -> io::Result<Vec<u8>> {
    let mut text = Vec::new(rt.alloc());
    rt.reader().read_to_end(&mut text)?;
    Ok(text)
}

// How many bytes stand before the first line feed of a text.
fn line_length(text: &[u8]) -> usize
    ensures run { result ≡ prefix_len (λ b. not (b == 10)) text.now }
    ensures within { result ≤ length text.now }
{
    text.iter().take_while(|b| **b != b'\n').count()
}

// The first place from `at` on that holds a line feed, or the end of the text.
fn line_end(text: &[u8], at: usize) -> usize
    requires { at ≤ length text.now }
    ensures { (result ≡ line_end text.now at) × (at ≤ result) × (result ≤ length text.now) }
{
    at + line_length(&text[at..])
}

// The line that begins at a place, without its line feed.
pub fn line_at(text: &[u8], at: usize) -> &[u8]
    requires { at ≤ length text.now }
    ensures { result.now ≡ first_line (drop at text.now) }
{
    let end = line_end(text, at);
    &text[at..end]
}

// Where the line after it begins.
pub fn next_line(text: &[u8], at: usize) -> usize
    requires { at ≤ length text.now }
    ensures { (result ≡ line_end text.now at + 1) × (at < result) × (result ≤ length text.now + 1) }
{
    line_end(text, at) + 1
}

// The lines of a text, without their line feeds.
#[derive(Clone, Copy)]
pub struct Lines<'a> {
    text: &'a [u8],
    at: usize,
}

impl<'a> Lines<'a> {
    pub fn of(text: &'a [u8]) -> Self
        ensures { (result.text ≡ text.entry) × (result.at ≡ 0) }
    {
        Lines { text, at: 0 }
    }
}

impl<'a> Iterator for Lines<'a> {
    type Item = &'a [u8];

    ghost next_gives = { λ s r t. Steps s r t };

    ghost remaining = { λ s. at_most (length s.text.now - s.at) };

    fn next(&mut self) -> Option<&'a [u8]> {
        if self.at >= self.text.len() {
            return None;
        }
        let line = line_at(self.text, self.at);
        self.at = next_line(self.text, self.at);
        Some(line)
    }
}

// A text as it is.
pub fn print(rt: &impl Print, text: &[u8]) -> io::Result<()> {
    rt.write_all(text)
}

// A number in decimal.
pub fn print_number(rt: &impl Print, n: usize) -> io::Result<()> {
    print!(rt; "{n}")
}

// A number in decimal, and a space behind it.
pub fn print_field(rt: &impl Print, n: usize) -> io::Result<()> {
    print!(rt; "{n} ")
}

// The first bytes of a row, at most so many, as numbers with a space behind each.
pub fn print_row(rt: &impl Print, row: &[u8], most: usize) -> io::Result<()> {
    for byte in row.iter().take(most) {
        print_field(rt, usize::from(*byte))?;
    }
    Ok(())
}

// A yes or no, and a space behind it.
pub fn print_answer(rt: &impl Print, yes: bool) -> io::Result<()> {
    let word = if yes { "yes " } else { "no " };
    rt.print(word)
}

// The end of a line: a text between `[` and `]`, and a line feed.
pub fn print_text(rt: &impl Print, text: &[u8]) -> io::Result<()> {
    print(rt, b"[")?;
    print(rt, text)?;
    print(rt, b"]\n")
}
