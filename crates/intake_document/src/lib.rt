// The call for the verdict on a document. It has no requirement: it says for every input what it answers.
#![tactic(auto)]

ghost use Rattle.intake_document.specs.Document.{AcceptsDocument};

use document_walk::walk_pairs;
use model_table_check::all_models;
use refusal::{Acceptance, Refusal};

// The most bytes that a document may have.
const LONGEST: usize = 60000;

// Whether the document is valid, by a table of models for so many names: 1, then 3, then 10, then 18 for an odd length,
// then the pairs from left to right.
pub fn accepts_document(names: usize, models: &[u8], document: &[u8]) -> Acceptance
    ensures { AcceptsDocument names models.now document.now result }
{
    if LONGEST < document.len() {
        return Acceptance::Refused(Refusal::BookTooLong);
    }
    if !nameset::good_count(names) {
        return Acceptance::Refused(Refusal::BadNameCount);
    }
    if !all_models(names, models) {
        return Acceptance::Refused(Refusal::NotAModel);
    }
    if document.len() % 2 == 1 {
        return Acceptance::Refused(Refusal::BadDocument);
    }
    walk_pairs(names, models, document)
}
