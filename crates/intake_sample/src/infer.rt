// The model of a parent, from the words of its blocks.
ghost use Rattle.std.specs.Prelude.{◌≡◌};
ghost use Rattle.intake_sample.specs.Inference.{InfersModel, found_in};

use super::InferredIn;
use chain_sample::{row_model, shows_word};
use follow_parent::take_parent;
use follow_row::ROW;
use model::Model;
use refusal::Refusal;

// 1 to 7, 16, 17, then 8, then 9, else the model.
pub fn find_model(bytes: &[u8], parent: usize) -> Result<InferredIn, Refusal>
    ensures { result ≡ found_in bytes.now parent }
{
    let mut row = [0u64; ROW];
    let layout = take_parent(bytes, parent, &mut row)?;
    if layout.names <= parent {
        return Err(Refusal::BadParent);
    }
    if !shows_word(&row) {
        return Err(Refusal::NoBlock);
    }
    let model = row_model(&row, layout.names);
    Ok(InferredIn { layout, model })
}

// The call: any bytes as the book, any parent.
pub fn model_of_parent(bytes: &[u8], parent: usize) -> Result<Model, Refusal>
    ensures { InfersModel bytes.now parent result }
{
    let found = find_model(bytes, parent)?;
    Ok(found.model)
}
