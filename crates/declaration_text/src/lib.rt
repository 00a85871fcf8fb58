// The text of a declaration, put into a borrowed buffer.
#![tactic(auto)]

ghost use Rattle.std.specs.Prelude.{◌≡◌, ◌+◌, ◌≤◌, ◌<◌, length};
ghost use Rattle.nameset.specs.Places.{places};
ghost use Rattle.book.specs.Book.{names_in};
ghost use Rattle.book.specs.Access.{LaidOut};
ghost use Rattle.model.specs.Record.{IsModel};
ghost use Rattle.declaration_spelling.specs.House.{declaration};
ghost use Rattle.byte_buffer.specs.Put.{Put};
ghost use Rattle.declaration_factor.specs.Parts.{before_byte, factors_text, body_part, mixed_part, content_part};

use book::Layout;
use byte_buffer::{put_all, put_some};
use declaration_factor::{put_factor, put_name, put_names};
use model::{Chain, Model};
use model_factors::factor_rows;
use nameset::row_at;

// What stands before factor i.
#[tactic(auto, unfolding(declaration_factor::specs::Parts::before_byte))]
fn before(i: usize) -> u8
    ensures { result ≡ before_byte i }
{
    if i == 0 { b'(' } else { b',' }
}

// The factors, each behind its bracket or comma.
fn put_factors(buffer: &mut [u8], at: usize, bytes: &[u8], layout: Layout, m: Chain) -> usize
    requires { LaidOut bytes.now layout × (at + length (factors_text (names_in bytes.now) layout.names m 0 m.count) ≤ length buffer.old) × (m.count ≤ places) }
    ensures { Put buffer.old at (factors_text (names_in bytes.now) layout.names m 0 m.count) result buffer.new }
{
    let rows = factor_rows(m, layout.names);
    let mut to = at;
    for i in 0..m.count {
        to = put_some(buffer, to, before(i));
        to = put_factor(buffer, to, bytes, layout, m, i, row_at(&rows, i));
    }
    to
}

// A model without text: `EMPTY`, or the factors in brackets.
fn put_body(buffer: &mut [u8], at: usize, bytes: &[u8], layout: Layout, m: Chain) -> usize
    requires { LaidOut bytes.now layout × (at + length (body_part (names_in bytes.now) layout.names m) ≤ length buffer.old) × (m.count ≤ places) }
    ensures { Put buffer.old at (body_part (names_in bytes.now) layout.names m) result buffer.new }
{
    if m.count == 0 {
        return put_all(buffer, at, b"EMPTY");
    }
    let to = put_factors(buffer, at, bytes, layout, m);
    put_some(buffer, to, b')')
}

// A model with text: `(#PCDATA)`, or the names of factor 0 behind `#PCDATA`, in brackets with a star.
fn put_mixed(buffer: &mut [u8], at: usize, bytes: &[u8], layout: Layout, m: Chain) -> usize
    requires { LaidOut bytes.now layout × (at + length (mixed_part (names_in bytes.now) layout.names m) ≤ length buffer.old) }
    ensures { Put buffer.old at (mixed_part (names_in bytes.now) layout.names m) result buffer.new }
{
    let opened = put_all(buffer, at, b"(#PCDATA");
    if m.count == 0 {
        return put_some(buffer, opened, b')');
    }
    let rows = factor_rows(m, layout.names);
    let named = put_names(buffer, opened, bytes, layout, row_at(&rows, 0), true, true);
    put_all(buffer, named, b")*")
}

// The model, by its text byte.
fn put_content(buffer: &mut [u8], at: usize, bytes: &[u8], layout: Layout, m: Model) -> usize
    requires { LaidOut bytes.now layout × (at + length (content_part (names_in bytes.now) layout.names m) ≤ length buffer.old) × (m.chain.count ≤ places) }
    ensures { Put buffer.old at (content_part (names_in bytes.now) layout.names m) result buffer.new }
{
    if m.text == 0 {
        return put_body(buffer, at, bytes, layout, m.chain);
    }
    put_mixed(buffer, at, bytes, layout, m.chain)
}

// The declaration of a model for a parent, of a book that was read, put into a buffer with room for it.
pub fn put_declaration(
    buffer: &mut [u8],
    at: usize,
    bytes: &[u8],
    layout: Layout,
    parent: usize,
    m: Model,
) -> usize
    requires { LaidOut bytes.now layout × (parent < layout.names) × IsModel places layout.names m × (at + length (declaration (names_in bytes.now) parent m) ≤ length buffer.old) }
    ensures { Put buffer.old at (declaration (names_in bytes.now) parent m) result buffer.new }
{
    let opened = put_all(buffer, at, b"<!ELEMENT ");
    let named = put_name(buffer, opened, bytes, layout, parent);
    let spaced = put_some(buffer, named, b' ');
    let modelled = put_content(buffer, spaced, bytes, layout, m);
    put_some(buffer, modelled, b'>')
}
