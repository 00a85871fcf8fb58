// Section 1 of the book: the count N and the names.
#![tactic(auto)]

ghost use Rattle.std.specs.Prelude.{◌≡◌, [], ◌+◌, ◌-◌, ◌≤◌, ◌<◌, length, drop};
ghost use Rattle.nameset.specs.Places.{places};
ghost use Rattle.book.specs.Field.{count_size};
ghost use Rattle.book.specs.Book.{name_of, names_of, name_section, longest_book};
ghost use Rattle.book_names.specs.Tables.{name_step, name_table, judged_name};

use book_bytes::{COUNT_SIZE, count_at, part, wide};
use nameset::{PLACES, good_count};
use refusal::Refusal;

// The names of a book: how many, where each length byte stands, and where the last name ends.
#[derive(Clone, Copy)]
pub struct NameTable {
    pub names: usize,
    pub offsets: [u16; PLACES],
    pub end: usize,
}

// How long a name is, whose bytes are taken whole, after the name before it.
#[tactic(auto, unfolding(crate::specs::Tables::judged_name, crate::specs::Tables::name_step))]
fn judge(name: &[u8], before: &[u8]) -> Result<usize, Refusal>
    ensures { result ≡ judged_name before.now name.now }
{
    if name::good_bytes(name) {
        if name_order::rises(before, name) {
            Ok(name.len())
        } else {
            Err(Refusal::NameNotAbove)
        }
    } else {
        Err(Refusal::BadName)
    }
}

// How long the name at a place is, after the name before it.
fn name_at(bytes: &[u8], at: usize, before: &[u8]) -> Result<usize, Refusal>
    requires { length bytes.now ≤ longest_book }
    ensures { result ≡ name_step (name_of before.now (drop at bytes.now)) }
{
    if bytes.len() <= at {
        return Err(Refusal::BytesMissing);
    }
    let size = wide(bytes[at]);
    if name::good_length(size) {
        let from = at + 1;
        if bytes.len() - from < size {
            return Err(Refusal::BytesMissing);
        }
        judge(part(bytes, from, from + size), before)
    } else {
        Err(Refusal::BadName)
    }
}

// The n names behind the count N.
fn read_names(bytes: &[u8], n: usize) -> Result<NameTable, Refusal>
    requires { (count_size ≤ length bytes.now) × (length bytes.now ≤ longest_book) × (n ≤ places) }
    ensures { result ≡ name_table (names_of n [] (drop count_size bytes.now)) }
{
    let mut offsets = [0u16; PLACES];
    let mut from = COUNT_SIZE;
    let mut at = COUNT_SIZE;
    for i in 0..n {
        let size = name_at(bytes, at, part(bytes, from, at))?;
        offsets[i] = at as u16;
        from = at + 1;
        at = from + size;
    }
    Ok(NameTable {
        names: n,
        offsets,
        end: at,
    })
}

pub fn name_section(bytes: &[u8]) -> Result<NameTable, Refusal>
    requires { length bytes.now ≤ longest_book }
    ensures { result ≡ name_table (name_section bytes.now) }
{
    if bytes.len() < COUNT_SIZE {
        return Err(Refusal::BytesMissing);
    }
    let n = count_at(bytes, 0);
    if good_count(n) {
        read_names(bytes, n)
    } else {
        Err(Refusal::BadNameCount)
    }
}
