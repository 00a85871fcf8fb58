// A run through the children of an element, by the row that a borrowed table of models has for its name.
#![tactic(auto)]

ghost use Rattle.std.specs.Prelude.{◌≡◌};
ghost use Rattle.model_table.specs.Table.{entry_of};
ghost use Rattle.model_table_step.specs.Run.{move_in, may_close, allows_text};

use model::State;
use model_step::{may_end, step};
use model_table::model_of;

// Where the run is after one more child.
#[tactic(auto, unfolding(crate::specs::Run::move_in))]
pub fn move_in(table: &[u8], name: u8, from: State, child: u8) -> Option<State>
    ensures { result ≡ move_in (entry_of table.now name) from child }
{
    let model = model_of(table, name)?;
    step(model.chain(), child, from)
}

// Whether the element may be closed.
#[tactic(auto, unfolding(crate::specs::Run::may_close))]
pub fn may_close(table: &[u8], name: u8, from: State) -> bool
    ensures { result ≡ may_close (entry_of table.now name) from }
{
    model_of(table, name).is_some_and(|model| may_end(model.chain(), from))
}

// Whether text may be in the element.
#[tactic(auto, unfolding(crate::specs::Run::allows_text))]
pub fn allows_text(table: &[u8], name: u8) -> bool
    ensures { result ≡ allows_text (entry_of table.now name) }
{
    model_of(table, name).is_some_and(|model| model.text() == 1)
}
