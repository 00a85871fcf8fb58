// The calls that put models into a table of models (request U7 of paper 02). They have no requirement: they say for
// every input what they answer and what the table then holds.
#![tactic(auto)]

ghost use Rattle.intake_models.specs.Putting.{PutsModel};
ghost use Rattle.intake_models.specs.Filling.{WritesModels};

use follow_table::{WORDS, take_table};
use model::Model;
use model_check::rows_are_model;
use model_table::ROW;
use model_table_row::put_row;
use model_table_rows::put_rows;
use refusal::Refusal;

// The model of a parent, put into its row: 3, then 8, then 10, then 12, else the row is written and all other bytes of
// the table keep their values.
pub fn put_model(names: usize, parent: usize, m: Model, models: &mut [u8]) -> Result<(), Refusal>
    ensures { PutsModel names parent m result models.old models.new }
{
    if !nameset::good_count(names) {
        return Err(Refusal::BadNameCount);
    }
    if names <= parent {
        return Err(Refusal::BadParent);
    }
    let rows = m.rows();
    if !rows_are_model(names, &rows) {
        return Err(Refusal::NotAModel);
    }
    let at = parent * ROW;
    if models.len() < at + ROW {
        return Err(Refusal::BufferTooShort);
    }
    put_row(models, at, &rows);
    Ok(())
}

// The rows of all names of a book, written to the front of the table: 1 to 7, 16, 17, then 12, else for each name with
// a block the model of its sample, and for the others a row of 0. The blocks are gone through once.
pub fn fill_models(bytes: &[u8], models: &mut [u8]) -> Result<usize, Refusal>
    ensures { WritesModels bytes.now result models.old models.new }
{
    let mut table = [0u64; WORDS];
    let names = take_table(bytes, &mut table)?.names;
    if models.len() < names * ROW {
        return Err(Refusal::BufferTooShort);
    }
    Ok(put_rows(models, names, &table))
}
