// The lines of a DTD, from the names of a book and the facts of its parents.
#![tactic(auto)]

ghost use Rattle.std.specs.Prelude.{◌≡◌, ◌+◌, ◌≤◌, ◌<◌, ltb, length};
ghost use Rattle.book.specs.Book.{names_in};
ghost use Rattle.book.specs.Access.{LaidOut};
ghost use Rattle.follow_row.specs.Row.{OfWords};
ghost use Rattle.byte_buffer.specs.Put.{Put};
ghost use Rattle.dtd_lines.specs.Lines.{fact_line, fact_lines, row_facts, table_facts, TableOfWords};

use book::Layout;
use byte_buffer::put_some;
use chain_sample::{row_model, shows_word};
use declaration_text::put_declaration;
use follow_table::row_of;

// The most bytes that a line has: the longest declaration, and a line feed.
const LONGEST_LINE: usize = 2254;

// The declaration of a parent and a line feed, or nothing where its facts show no word.
fn put_line(
    out: &mut [u8],
    at: usize,
    bytes: &[u8],
    layout: Layout,
    row: &[u64],
    parent: usize,
) -> usize
    requires { LaidOut bytes.now layout × (parent < layout.names) × OfWords layout.names row.now
        × (at + length (fact_line (names_in bytes.now) parent (row_facts layout.names row.now)) ≤ length out.old) }
    ensures { Put out.old at (fact_line (names_in bytes.now) parent (row_facts layout.names row.now)) result out.new }
{
    if !shows_word(row) {
        return at;
    }
    let model = row_model(row, layout.names);
    let end = put_declaration(out, at, bytes, layout, parent, model);
    put_some(out, end, b'\n')
}

// The lines of all parents, into a buffer with room for them.
pub fn put_lines(out: &mut [u8], bytes: &[u8], layout: Layout, table: &[u64]) -> usize
    requires { LaidOut bytes.now layout × TableOfWords layout.names table.now
        × (length (fact_lines (names_in bytes.now) (table_facts layout.names table.now) 0 layout.names) ≤ length out.old) }
    ensures { Put out.old 0 (fact_lines (names_in bytes.now) (table_facts layout.names table.now) 0 layout.names) result out.new }
{
    let mut to = 0;
    for parent in 0..layout.names {
        to = put_line(out, to, bytes, layout, row_of(table, parent), parent);
    }
    to
}

// How many bytes the line of a parent has: it is put together aside.
fn line_length(bytes: &[u8], layout: Layout, row: &[u64], parent: usize) -> usize
    requires { LaidOut bytes.now layout × (parent < layout.names) × OfWords layout.names row.now }
    ensures { result ≡ length (fact_line (names_in bytes.now) parent (row_facts layout.names row.now)) }
{
    let mut aside = [0u8; LONGEST_LINE];
    put_line(&mut aside, 0, bytes, layout, row, parent)
}

// How many bytes all lines have.
fn lines_length(bytes: &[u8], layout: Layout, table: &[u64]) -> usize
    requires { LaidOut bytes.now layout × TableOfWords layout.names table.now }
    ensures { result ≡ length (fact_lines (names_in bytes.now) (table_facts layout.names table.now) 0 layout.names) }
{
    let mut size = 0;
    for parent in 0..layout.names {
        size += line_length(bytes, layout, row_of(table, parent), parent);
    }
    size
}

// Whether all lines have more bytes than a buffer. Where any lines of so many parents would fit, their length is not
// needed.
pub fn lines_exceed(bytes: &[u8], layout: Layout, table: &[u64], room: usize) -> bool
    requires { LaidOut bytes.now layout × TableOfWords layout.names table.now }
    ensures { result ≡ ltb room (length (fact_lines (names_in bytes.now) (table_facts layout.names table.now) 0 layout.names)) }
{
    if layout.names * LONGEST_LINE <= room {
        return false;
    }
    room < lines_length(bytes, layout, table)
}
