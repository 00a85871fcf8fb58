// The largest byte of a row.
#![tactic(auto)]

ghost use Rattle.std.specs.Prelude.{◌≡◌, max, drop};
ghost use Rattle.byte_row.specs.Largest.{largest};

// The larger of two bytes.
pub fn larger(a: u8, b: u8) -> u8
    ensures { result ≡ max a b }
{
    a.max(b)
}

// The largest of the bytes from a place on, 0 where there is none. No early end: the loop runs over many bytes at once.
pub fn largest_from(row: &[u8], from: usize) -> u8
    ensures { result ≡ largest (drop from row.now) }
{
    let mut top: u8 = 0;
    for x in &row[from.min(row.len())..] {
        top = larger(top, *x);
    }
    top
}
