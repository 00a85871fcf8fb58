// The rows of a table of models, from the facts of a book's parents.
#![tactic(auto)]

ghost use Rattle.std.specs.Prelude.{◌+◌, ◌*◌, ◌≤◌, length};
ghost use Rattle.nameset.specs.Places.{places};
ghost use Rattle.follow_row.specs.Row.{OfWords};
ghost use Rattle.byte_buffer.specs.Put.{Put};
ghost use Rattle.model_table.specs.Table.{row_size};
ghost use Rattle.dtd_lines.specs.Lines.{row_facts, TableOfWords};
ghost use Rattle.model_table_rows.specs.Rows.{rows_below, fact_row, table_row};

use chain_sample::{row_model, shows_word};
use follow_table::row_of;
use model_table_row::{put_empty_row, put_row};

// The row of a parent whose facts are in a row of words: that of its model, or the one for no model where they show no
// word.
fn put_fact_row(models: &mut [u8], at: usize, names: usize, facts: &[u64]) -> usize
    requires { (names ≤ places) × OfWords names facts.now × (at + row_size ≤ length models.old) }
    ensures { Put models.old at (fact_row (row_facts names facts.now)) result models.new }
{
    if !shows_word(facts) {
        return put_empty_row(models, at);
    }
    let m = row_model(facts, names);
    put_row(models, at, &m.rows())
}

// The rows of all parents, by the table of their facts, into the front of a table with room for them.
pub fn put_rows(models: &mut [u8], names: usize, table: &[u64]) -> usize
    requires { TableOfWords names table.now × (names * row_size ≤ length models.old) }
    ensures { Put models.old 0 (rows_below (table_row names table.now) names) result models.new }
{
    let mut to = 0;
    for parent in 0..names {
        to = put_fact_row(models, to, names, row_of(table, parent));
    }
    to
}
