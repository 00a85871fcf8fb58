// Rows of a table of models, put into a borrowed table. Each function answers the place behind the row.
#![tactic(auto)]

ghost use Rattle.std.specs.Prelude.{◌≡◌, ◌+◌, ◌≤◌, length};
ghost use Rattle.nameset.specs.Places.{places};
ghost use Rattle.byte_buffer.specs.Put.{Put};
ghost use Rattle.model_table.specs.Table.{row_size, model_row, empty_row};

use byte_buffer::put_all;
use model::ModelRows;
use model_table::{COUNT, FACTORS, ROW, TEXT};

// The first byte of a row that has a model.
const HAS_MODEL: u8 = 1;

// The row of a model.
pub fn put_row(table: &mut [u8], at: usize, model: &ModelRows) -> usize
    requires { (at + row_size ≤ length table.old) × (model.now.chain.count ≤ 255) × (length model.now.chain.factor ≡ places) × (length model.now.chain.mode ≡ places) }
    ensures { Put table.old at (model_row model.now) result table.new }
{
    let chain = model.chain();
    table[at] = HAS_MODEL;
    table[at + COUNT] = chain.count() as u8;
    table[at + TEXT] = model.text();
    let modes = put_all(table, at + FACTORS, chain.factor());
    put_all(table, modes, chain.mode())
}

// The row of a name without a model.
#[tactic(auto, unfolding(model_table::specs::Table::empty_row))]
pub fn put_empty_row(table: &mut [u8], at: usize) -> usize
    requires { at + row_size ≤ length table.old }
    ensures { Put table.old at empty_row result table.new }
{
    let zeros = [0u8; ROW];
    put_all(table, at, &zeros)
}
