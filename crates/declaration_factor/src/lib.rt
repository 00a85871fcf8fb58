// The text of one factor: a name, the names, the factor.
#![tactic(auto)]

ghost use Rattle.std.specs.Prelude.{◌≡◌, false, ◌+◌, ◌≤◌, ◌<◌, length};
ghost use Rattle.book.specs.Book.{names_in};
ghost use Rattle.book.specs.Access.{LaidOut};
ghost use Rattle.model.specs.Record.{mode_of};
ghost use Rattle.declaration_spelling.specs.House.{name_at};
ghost use Rattle.byte_buffer.specs.Put.{Put};
ghost use Rattle.model_factors.specs.Names.{NamesOf};
ghost use Rattle.declaration_factor.specs.Parts.{lead_byte, close_byte, mode_byte, MembersBelow, set_text, part_text};

use book::Layout;
use byte_buffer::{put_all, put_some};
use model::Chain;
use nameset::NameSet;

// The mode of factor i.
#[tactic(auto, unfolding(model::specs::Record::mode_of))]
fn mode_of(m: Chain, i: usize) -> u8
    ensures { result ≡ mode_of m i }
{
    m.mode.get(i).copied().unwrap_or(0)
}

// What stands before a name of a factor: nothing where it is the only one.
#[tactic(auto, unfolding(crate::specs::Parts::lead_byte))]
fn lead(many: bool, some: bool) -> u8
    ensures { result ≡ lead_byte many some }
{
    match (many, some) {
        (true, true) => b'|',
        (true, false) => b'(',
        (false, _) => 0,
    }
}

// What stands behind the names of a factor.
#[tactic(auto, unfolding(crate::specs::Parts::close_byte))]
fn closing(many: bool) -> u8
    ensures { result ≡ close_byte many }
{
    if many { b')' } else { 0 }
}

// The mark of a mode, 0 for none.
#[tactic(auto, unfolding(crate::specs::Parts::mode_byte, declaration_spelling::specs::Token::mark_byte))]
fn mark(mode: u8) -> u8
    ensures { result ≡ mode_byte mode }
{
    match mode {
        0 => 0,
        1 => b'?',
        2 => b'+',
        _ => b'*',
    }
}

// The bytes of name x.
pub fn put_name(buffer: &mut [u8], at: usize, bytes: &[u8], layout: Layout, x: usize) -> usize
    requires { LaidOut bytes.now layout × (x < layout.names) × (at + length (name_at (names_in bytes.now) x) ≤ length buffer.old) }
    ensures { Put buffer.old at (name_at (names_in bytes.now) x) result buffer.new }
{
    put_all(buffer, at, book_access::name_bytes(bytes, layout, x))
}

// The names of a set, rising, each behind its lead; `some` says whether a name or `#PCDATA` stands before them.
pub fn put_names(
    buffer: &mut [u8],
    at: usize,
    bytes: &[u8],
    layout: Layout,
    names: NameSet,
    many: bool,
    some: bool,
) -> usize
    requires { LaidOut bytes.now layout × (at + length (set_text (names_in bytes.now) layout.names names many some) ≤ length buffer.old) × MembersBelow layout.names names }
    ensures { Put buffer.old at (set_text (names_in bytes.now) layout.names names many some) result buffer.new }
{
    let mut to = at;
    let mut later = some;
    for x in names.names() {
        to = put_some(buffer, to, lead(many, later));
        to = put_name(buffer, to, bytes, layout, x);
        later = true;
    }
    to
}

// Factor i, whose names are given: its names, in brackets where they are many, and its mark.
pub fn put_factor(
    buffer: &mut [u8],
    at: usize,
    bytes: &[u8],
    layout: Layout,
    m: Chain,
    i: usize,
    names: NameSet,
) -> usize
    requires { LaidOut bytes.now layout × (at + length (part_text (names_in bytes.now) layout.names m i) ≤ length buffer.old) × NamesOf m layout.names i names }
    ensures { Put buffer.old at (part_text (names_in bytes.now) layout.names m i) result buffer.new }
{
    let many = !names.rest().is_empty();
    let named = put_names(buffer, at, bytes, layout, names, many, false);
    let closed = put_some(buffer, named, closing(many));
    put_some(buffer, closed, mark(mode_of(m, i)))
}
