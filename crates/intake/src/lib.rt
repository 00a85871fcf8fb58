// The ten calls open to the outside and the types of their answers, passed on from the crates that have them. No call
// has a requirement: each says for every input what it answers.
#![tactic(auto)]

pub use declaration_reading::read_declaration;
pub use declaration_spelling::Declared;
pub use declaration_writing::write_declaration;
pub use intake_document::accepts_document;
pub use intake_dtd::write_dtd;
pub use intake_models::{fill_models, put_model};
pub use intake_sample::{model_of_parent, write_from_sample};
pub use intake_within::{Inclusion, within};
pub use intake_word::accepts_word;
pub use refusal::{Acceptance, Refusal};
