// Sets kept as rows of machine words: the row of a parent's facts keeps its sets and its marks in one array of words.
ghost use Rattle.std.specs.Prelude.{◌≡◌, length};
ghost use Rattle.nameset.specs.Rows.{HasRow, row_at, put_row};

use super::NameSet;

// The set in row a.
#[tactic(auto, unfolding(crate::specs::Rows::row_at))]
pub fn row_at(rows: &[u64], a: usize) -> NameSet
    requires { HasRow rows.now a }
    ensures { result ≡ row_at rows.now a }
{
    NameSet { bits: rows[a] }
}

// Puts a set in as row a.
#[tactic(auto, unfolding(crate::specs::Rows::put_row))]
pub fn put_row(rows: &mut [u64], a: usize, set: NameSet)
    requires { HasRow rows.old a }
    ensures { (rows.new ≡ put_row rows.old a set) × (length rows.new ≡ length rows.old) }
{
    rows[a] = set.bits;
}
