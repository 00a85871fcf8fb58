// An element of a document that is open: its name, and where the run through its children is.
#![tactic(auto)]

use model::State;

#[derive(Clone, Copy)]
pub struct Frame {
    pub name: u8,
    pub state: State,
}
