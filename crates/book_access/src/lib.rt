// Back to a name of a book that was read.
#![tactic(auto)]

ghost use Rattle.std.specs.Prelude.{◌≡◌, [], ◌+◌, ◌≤◌, ◌<◌, length, get_or, take, drop};
ghost use Rattle.name_order.specs.Order.{order_of};
ghost use Rattle.book.specs.Book.{names_in};
ghost use Rattle.book.specs.Access.{LaidOut, number_in};

use book::Layout;
use std::cmp::Ordering;

// The name whose length byte stands at a place.
fn name_at_place(bytes: &[u8], at: usize) -> &[u8]
    requires { (at + 1 ≤ length bytes.now) × (at + 1 + get_or bytes.now at 0 ≤ length bytes.now) }
    ensures { result.now ≡ take (get_or bytes.now at 0) (drop (at + 1) bytes.now) }
{
    let from = at + 1;
    &bytes[from..from + usize::from(bytes[at])]
}

// How the name whose length byte stands at a place stands to a text.
fn compare_at_place(bytes: &[u8], at: usize, text: &[u8]) -> Ordering
    requires { (at + 1 ≤ length bytes.now) × (at + 1 + get_or bytes.now at 0 ≤ length bytes.now) }
    ensures { result ≡ order_of (take (get_or bytes.now at 0) (drop (at + 1) bytes.now)) text.now }
{
    name_order::compare(name_at_place(bytes, at), text)
}

// The bytes of name i.
pub fn name_bytes(bytes: &[u8], layout: Layout, i: usize) -> &[u8]
    requires { LaidOut bytes.now layout × (i < layout.names) }
    ensures { result.now ≡ get_or (names_in bytes.now) i [] }
{
    name_at_place(bytes, usize::from(layout.offsets[i]))
}

// The number of the name that is the text. Names rise, so the search halves what is left at each step. The library's
// binary_search_by asks that the comparison can be called at any offset, and this one can at those of names alone.
pub fn find_name(bytes: &[u8], layout: Layout, text: &[u8]) -> Option<usize>
    requires { LaidOut bytes.now layout }
    ensures { result ≡ number_in (names_in bytes.now) text.now }
{
    let mut low = 0;
    let mut high = layout.names;
    while low < high {
        let middle = low + (high - low) / 2;
        match compare_at_place(bytes, usize::from(layout.offsets[middle]), text) {
            Ordering::Less => low = middle + 1,
            Ordering::Equal => return Some(middle),
            Ordering::Greater => high = middle,
        }
    }
    None
}
