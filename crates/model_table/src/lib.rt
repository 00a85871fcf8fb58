// A borrowed table of models: the model of a name, whose rows are borrowed from the table. Nothing is copied out of it.
#![tactic(auto)]

ghost use Rattle.std.specs.Prelude.{◌≡◌, length, take, drop};
ghost use Rattle.nameset.specs.Places.{places};
ghost use Rattle.model_table.specs.Table.{factors_at, modes_at, row_size, row_of, is_absent, entry_of};

use model::{ChainRows, ModelRows, entry};
use nameset::PLACES;

// Where a row has the byte that says whether there is a model, the count F, the text byte, the factors and the modes.
const PRESENT: usize = 0;

pub const COUNT: usize = 1;

pub const TEXT: usize = 2;

pub const FACTORS: usize = 3;

pub const MODES: usize = FACTORS + PLACES;

// The bytes of a row.
pub const ROW: usize = MODES + PLACES;

// The row of a name, with no bytes where the table is too short for it.
fn row_of(table: &[u8], name: u8) -> &[u8]
    ensures { result.now ≡ row_of table.now name }
{
    let from = name as usize * ROW;
    let to = from + ROW;
    if to <= table.len() {
        &table[from..to]
    } else {
        &table[0..0]
    }
}

// Whether a row has no model.
#[tactic(auto, unfolding(crate::specs::Table::is_absent))]
fn is_absent(row: &[u8]) -> bool
    ensures { result ≡ is_absent row.now }
{
    entry(row, PRESENT, 0) == 0
}

// The factors of a whole row.
fn factors_in(row: &[u8]) -> &[u8]
    requires { length row.now ≡ row_size }
    ensures { result.now ≡ take places (drop factors_at row.now) }
{
    let from = FACTORS;
    let to = MODES;
    &row[from..to]
}

// The modes of a whole row.
fn modes_in(row: &[u8]) -> &[u8]
    requires { length row.now ≡ row_size }
    ensures { result.now ≡ drop modes_at row.now }
{
    let from = MODES;
    &row[from..]
}

// The model that the table has for a name, if it has one.
pub fn model_of(table: &[u8], name: u8) -> Option<ModelRows<'_>>
    ensures { result ≡ entry_of table.now name }
{
    let row = row_of(table, name);
    if is_absent(row) {
        return None;
    }
    let count = entry(row, COUNT, 0) as usize;
    let chain = ChainRows::new(count, factors_in(row), modes_in(row));
    Some(ModelRows::new(chain, entry(row, TEXT, 0)))
}
