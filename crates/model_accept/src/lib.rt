// Which words a model record accepts, by a run through the word from left to right.
#![tactic(auto)]

ghost use Rattle.std.specs.Prelude.{◌≡◌};
ghost use Rattle.model.specs.Run.{accepts};

use model::{ChainRows, State};
use model_step::{may_end, step};

// Whether the record of these rows accepts the word: from left to right, one step for each name.
pub fn rows_accept(rows: &ChainRows, word: &[u8]) -> bool
    ensures { result ≡ accepts rows.now word.now }
{
    let mut state = State {
        factor: 0,
        taken: false,
    };
    for &x in word {
        let Some(next) = step(rows, x, state) else {
            return false;
        };
        state = next;
    }
    may_end(rows, state)
}
