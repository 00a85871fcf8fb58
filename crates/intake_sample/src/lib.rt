// The calls that answer with the model of a parent's sample. None has a requirement: each says for every input what it
// answers.
#![tactic(auto)]

use book::Layout;
use model::Model;

mod infer; // infer.rt: the model of a parent
mod write; // write.rt: the declaration of a parent's model

pub use infer::model_of_parent;
pub use write::write_from_sample;

// The model of a parent, with the layout of the book for whoever goes back to its names.
#[derive(Clone, Copy)]
struct InferredIn {
    layout: Layout,
    model: Model,
}
