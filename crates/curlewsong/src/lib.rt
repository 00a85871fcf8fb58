// The calls for C and Rust, as include/curlewsong.h declares them: each is a call open to the outside, its answer as a
// reply. `curlewsong_c` exports them.
#![tactic(auto)]

ghost use Rattle.curlewsong.specs.Replies.{RepliesModel, RepliesWord, RepliesDocument, RepliesWithin, RepliesWritten, RepliesSample, RepliesDtd, RepliesText, RepliesPut, RepliesModels};

use curlewsong_reply::{
    InclusionReply, LengthReply, ModelReply, TextReply, Verdict, inclusion_of, length_of, model_of,
    text_of, verdict_of,
};
use model::Model;

// The model of a parent from its blocks: 1 to 7, 16, 17, 8, 9.
pub fn curlewsong_model_of_parent(book: &[u8], parent: usize) -> ModelReply
    ensures { RepliesModel book.now parent result }
{
    model_of(intake::model_of_parent(book, parent))
}

// Whether a model over so many names accepts a word: 3, 10, 11.
pub fn curlewsong_accepts_word(names: usize, model: Model, word: &[u8]) -> Verdict
    ensures { RepliesWord names model word.now result }
{
    verdict_of(intake::accepts_word(names, model, word))
}

// Whether a document is valid, by a table of models for so many names: 1, 3, 10, then 18 or 19.
pub fn curlewsong_accepts_document(names: usize, models: &[u8], document: &[u8]) -> Verdict
    ensures { RepliesDocument names models.now document.now result }
{
    verdict_of(intake::accepts_document(names, models, document))
}

// Whether every word of the first model is a word of the second: 3, 10, 12; 10 for the first, then for the second.
pub fn curlewsong_within(
    names: usize,
    first: Model,
    second: Model,
    word: &mut [u8],
) -> InclusionReply
    ensures { RepliesWithin names first second result word.old word.new }
{
    inclusion_of(intake::within(names, first, second, word))
}

// Writes the declaration of a parent with a model: 1 to 7, 16, 17, 8, 10, 12.
pub fn curlewsong_write_declaration(
    book: &[u8],
    parent: usize,
    model: Model,
    buffer: &mut [u8],
) -> LengthReply
    ensures { RepliesWritten book.now parent model result buffer.old buffer.new }
{
    length_of(intake::write_declaration(book, parent, model, buffer))
}

// Writes the declaration of a parent with the model from its blocks: 1 to 7, 16, 17, 8, 9, 12.
pub fn curlewsong_write_from_sample(book: &[u8], parent: usize, buffer: &mut [u8]) -> LengthReply
    ensures { RepliesSample book.now parent result buffer.old buffer.new }
{
    length_of(intake::write_from_sample(book, parent, buffer))
}

// Writes the declarations of all parents with a block: 1 to 7, 16, 17, 12.
pub fn curlewsong_write_dtd(book: &[u8], buffer: &mut [u8]) -> LengthReply
    ensures { RepliesDtd book.now result buffer.old buffer.new }
{
    length_of(intake::write_dtd(book, buffer))
}

// Reads a declaration: 1 to 7, 16, 17, 13, 14, 15.
pub fn curlewsong_read_declaration(book: &[u8], text: &[u8]) -> TextReply
    ensures { RepliesText book.now text.now result }
{
    text_of(intake::read_declaration(book, text))
}

// Puts the model of a parent among so many names into a table of models, and answers the number of the refusal, 0 for
// none: 3, 8, 10, 12.
pub fn curlewsong_put_model(names: usize, parent: usize, model: Model, models: &mut [u8]) -> u8
    ensures { RepliesPut names parent model result models.old models.new }
{
    refusal::answer_number(&intake::put_model(names, parent, model, models))
}

// Fills a table of models from the samples of a book: 1 to 7, 16, 17, 12.
pub fn curlewsong_fill_models(book: &[u8], models: &mut [u8]) -> LengthReply
    ensures { RepliesModels book.now result models.old models.new }
{
    length_of(intake::fill_models(book, models))
}
