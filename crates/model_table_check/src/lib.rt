// Whether every record of a borrowed table of models is a model.
#![tactic(auto)]

ghost use Rattle.std.specs.Prelude.{◌≡◌, ◌≤◌};
ghost use Rattle.nameset.specs.Places.{places};
ghost use Rattle.model_table.specs.Table.{entry_of};
ghost use Rattle.model_table_check.specs.Check.{good_entry, all_models};

use model_check::rows_are_model;
use model_table::model_of;

// Whether a name has no record, or one that is a model over n names.
#[tactic(auto, unfolding(crate::specs::Check::good_entry))]
fn is_model_in(n: usize, table: &[u8], name: u8) -> bool
    ensures { result ≡ good_entry n (entry_of table.now name) }
{
    match model_of(table, name) {
        Some(model) => rows_are_model(n, &model),
        None => true,
    }
}

// Whether this holds of each of the n names, by rising number.
pub fn all_models(n: usize, table: &[u8]) -> bool
    requires { n ≤ places }
    ensures { result ≡ all_models n table.now }
{
    for x in 0..n {
        if !is_model_in(n, table, x as u8) {
            return false;
        }
    }
    true
}
