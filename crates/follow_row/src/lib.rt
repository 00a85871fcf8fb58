// The follow facts of one parent and whether it has text, kept as a row of words; and a block added to them.
#![tactic(auto)]

ghost use Rattle.std.specs.Prelude.{◌≡◌, true, length};
ghost use Rattle.nameset.specs.Places.{places};
ghost use Rattle.book.specs.Book.{all_below};
ghost use Rattle.follow_row.specs.Row.{row_size, with_text, with_ends, WordAdded, RowAdded};

use follow::{add_pairs, with_first, with_last};
use nameset::{PLACES, put_row, row_at};

// A row: the set of starts and the set of ends, as rows of `nameset`; 1 where a word is empty; 1 where a block has
// text; then the names that follow each name.
pub const STARTS: usize = 0;

pub const ENDS: usize = 1;

pub const EMPTY: usize = 2;

pub const TEXT: usize = 3;

pub const FOLLOWS: usize = 4;

pub const ROW: usize = FOLLOWS + PLACES;

// Marks a row where a block has text: once set the mark stays.
fn add_text(row: &mut [u64], text: u8)
    requires { length row.old ≡ row_size }
    ensures { (row.new ≡ with_text row.old text) × (length row.new ≡ row_size) }
{
    if text == 1 {
        row[TEXT] = 1;
    }
}

// Puts the first name of a word into the starts of a row, and the last into the ends.
fn add_ends(row: &mut [u64], word: &[u8])
    requires { (length row.old ≡ row_size) × (all_below places word.now ≡ true) }
    ensures { (row.new ≡ with_ends row.old word.now) × (length row.new ≡ row_size) }
{
    let starts = with_first(row_at(row, STARTS), word);
    put_row(row, STARTS, starts);
    let ends = with_last(row_at(row, ENDS), word);
    put_row(row, ENDS, ends);
}

// Adds a word to a row: the facts change only by what that word shows (paper 01).
fn add_word(row: &mut [u64], word: &[u8])
    requires { (length row.old ≡ row_size) × (all_below places word.now ≡ true) }
    ensures { WordAdded row.old word.now row.new }
{
    if word.is_empty() {
        row[EMPTY] = 1;
        return;
    }
    add_ends(row, word);
    add_pairs(&mut row[FOLLOWS..], word);
}

// Adds a block to a row: its text byte and its word.
pub fn add_to_row(row: &mut [u64], text: u8, word: &[u8])
    requires { (length row.old ≡ row_size) × (all_below places word.now ≡ true) }
    ensures { RowAdded row.old text word.now row.new }
{
    add_text(row, text);
    add_word(row, word);
}
