// Texts that have the form of a declaration, and texts that have not: two with line feeds, then each line of standard
// input. Each line of output has the answer, and the text between `[` and `]`. In this order: house spelling; names of
// a group in any order, a name twice, which is 15 and not 13, and `EMPTY` as a name; one name in brackets and a group
// as the whole model; marks behind other brackets and behind `EMPTY`; brackets within brackets, marks within groups,
// commas beside bars, and marks one after the other; commas, bars and brackets that lack a neighbour; texts that end
// early; other words where the model stands; the rule for names; spaces in each place where they may stand; spaces
// where none may stand, or where one is missing; tabs and carriage returns in these places; bytes that are no white
// space; bytes behind `>`; `#PCDATA` alone and with names; other marks behind it, other places of it, and other words
// like it; the longest declaration, and the same with a name of 33 bytes.
#![tactic(auto)]

use std::io;
use test_lines::Lines;

// One line.
fn tell(rt: &impl Print, text: &[u8]) -> io::Result<()> {
    test_lines::print_answer(rt, declaration_form::has_form(text))?;
    test_lines::print_text(rt, text)
}

fn tell_lines(rt: &impl Print, text: &[u8]) -> io::Result<()> {
    for line in Lines::of(text) {
        tell(rt, line)?;
    }
    Ok(())
}

fn main(rt: HostRuntime) -> io::Result<()> {
    tell(&rt, b"<!ELEMENT a (b,\nc)>")?;
    tell(&rt, b"<!ELEMENT a (b)>\n")?;
    let text = test_lines::read_input(&rt)?;
    tell_lines(&rt, &text)
}
