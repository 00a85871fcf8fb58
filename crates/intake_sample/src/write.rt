// The declaration of a parent, with the model that its sample gives.
ghost use Rattle.intake_sample.specs.Writing.{WritesSample};

use super::infer::find_model;
use refusal::Refusal;

// The call: any bytes as the book, any parent, any buffer. 1 to 7, 16, 17, then 8, then 9, then 12, else the
// declaration.
pub fn write_from_sample(bytes: &[u8], parent: usize, buffer: &mut [u8]) -> Result<usize, Refusal>
    ensures { WritesSample bytes.now parent result buffer.old buffer.new }
{
    let found = find_model(bytes, parent)?;
    declaration_writing::write_model(bytes, found.layout, parent, found.model, buffer)
}
