// The names of each factor of a record, as rows of words.
#![tactic(auto)]

ghost use Rattle.std.specs.Prelude.{◌≤◌};
ghost use Rattle.nameset.specs.Places.{places};
ghost use Rattle.model_factors.specs.Names.{RowsOf};

use model::Chain;
use nameset::{PLACES, ROWS, put_row, row_at};

// Row i keeps those of the first n names that factor i holds. One pass: each name is put into the row of its factor.
pub fn factor_rows(m: Chain, n: usize) -> [u64; ROWS]
    requires { n ≤ places }
    ensures { RowsOf m n result }
{
    let mut rows = [0u64; ROWS];
    for x in 0..n {
        let i = usize::from(m.factor[x]);
        if i < PLACES {
            let names = row_at(&rows, i).with(x);
            put_row(&mut rows, i, names);
        }
    }
    rows
}
