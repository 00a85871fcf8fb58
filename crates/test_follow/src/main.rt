// Prints the follow facts of some parents of a small book on standard input, with whether each has text, and the facts
// of one word.
#![tactic(auto)]

ghost use Rattle.std.specs.Prelude.{◌≡◌, length};
ghost use Rattle.follow_row.specs.Row.{row_size};

use follow::Facts;
use follow_row::{EMPTY, ENDS, FOLLOWS, ROW, STARTS, TEXT};
use nameset::{NameSet, ROWS, row_at};
use std::io;

// A number with a bit for each name below 8 that is in a set.
fn bits_of(names: NameSet) -> u64 {
    let mut bits = 0u64;
    for i in 0..8 {
        if names.has(i) {
            bits |= 1 << i;
        }
    }
    bits
}

// The names below 8 of a set, one bit for each.
fn print_set(rt: &impl Print, label: &str, names: NameSet) -> io::Result<()> {
    let bits = bits_of(names);
    println!(rt; "{label}{bits:02x}")
}

// What a row keeps.
fn print_row(rt: &impl Print, row: &[u64]) -> io::Result<()>
    requires { length row.now ≡ row_size }
{
    print_set(rt, "starts ", row_at(row, STARTS))?;
    print_set(rt, "ends ", row_at(row, ENDS))?;
    print_set(rt, "after 0 ", row_at(row, FOLLOWS))?;
    print_set(rt, "after 2 ", row_at(row, FOLLOWS + 2))?;
    print_set(rt, "after 3 ", row_at(row, FOLLOWS + 3))?;
    if row[EMPTY] == 1 {
        println!(rt; "empty")?;
    }
    if row[TEXT] == 1 {
        println!(rt; "text")?;
    }
    Ok(())
}

// The facts of a parent, with the number of the refusal, 0 for none.
fn print_parent(rt: &impl Print, bytes: &[u8], parent: usize) -> io::Result<()> {
    let mut row = [0u64; ROW];
    let taken = follow_parent::take_parent(bytes, parent, &mut row);
    let number = refusal::answer_number(&taken);
    println!(rt; "parent {parent} {number}")?;
    print_row(rt, &row)
}

// The facts of one word, added to borrowed facts.
fn pair_facts() -> Facts {
    let none = Facts {
        starts: NameSet::empty(),
        ends: NameSet::empty(),
        follows: [0u64; ROWS],
        empty: false,
    };
    follow_borrowed::after_word(none, b"\x02\x00")
}

fn print_pair(rt: &impl Print) -> io::Result<()> {
    let facts = pair_facts();
    let rows = facts.follows;
    println!(rt; "word 2 0")?;
    print_set(rt, "starts ", facts.starts)?;
    print_set(rt, "ends ", facts.ends)?;
    print_set(rt, "after 2 ", row_at(&rows, 2))
}

fn main(rt: HostRuntime) -> io::Result<()> {
    let book = test_lines::read_input(&rt)?;
    print_parent(&rt, &book, 0)?;
    print_parent(&rt, &book, 1)?;
    print_parent(&rt, &book, 5)?;
    print_parent(&rt, &book, 2)?;
    print_pair(&rt)
}
