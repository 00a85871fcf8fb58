// Answers as C and Rust get them, as include/curlewsong.h declares them: the refusal as a number, 0 for none.
#![tactic(auto)]

ghost use Rattle.std.specs.Prelude.{◌≡◌};
ghost use Rattle.curlewsong_reply.specs.Reply.{model_reply, verdict, inclusion_of, inclusion_reply, length_reply, text_reply};

use declaration_spelling::Declared;
use intake_within::Inclusion;
use model::Model;
use refusal::{Acceptance, Refusal};

// A model, or the empty one and why.
#[repr(C)]
#[derive(Clone, Copy)]
pub struct ModelReply {
    pub refusal: u8,
    pub model: Model,
}

// A yes or no, or no and why.
#[repr(C)]
#[derive(Clone, Copy)]
pub struct Verdict {
    pub refusal: u8,
    pub yes: bool,
}

// A yes, or a no and the length of a word, or no and 0 and why.
#[repr(C)]
#[derive(Clone, Copy)]
pub struct InclusionReply {
    pub refusal: u8,
    pub yes: bool,
    pub length: usize,
}

// The length that was written, or 0 and why.
#[repr(C)]
#[derive(Clone, Copy)]
pub struct LengthReply {
    pub refusal: u8,
    pub length: usize,
}

// What a text was read as, or parent 0 and the empty model and why.
#[repr(C)]
#[derive(Clone, Copy)]
pub struct TextReply {
    pub refusal: u8,
    pub parent: usize,
    pub model: Model,
}

// The reply to a caller who asked for a yes or no.
pub fn verdict_of(answer: Acceptance) -> Verdict
    ensures { result ≡ verdict answer }
{
    match answer {
        Acceptance::Yes => Verdict {
            refusal: 0,
            yes: true,
        },
        Acceptance::No => Verdict {
            refusal: 0,
            yes: false,
        },
        Acceptance::Refused(stop) => Verdict {
            refusal: refusal::number(stop),
            yes: false,
        },
    }
}

// The reply with these parts.
fn replied(refusal: u8, yes: bool, length: usize) -> InclusionReply
    ensures { result ≡ inclusion_of refusal yes length }
{
    InclusionReply {
        refusal,
        yes,
        length,
    }
}

// The reply to a caller who compared two models.
pub fn inclusion_of(answer: Inclusion) -> InclusionReply
    ensures { result ≡ inclusion_reply answer }
{
    match answer {
        Inclusion::Yes => replied(0, true, 0),
        Inclusion::No(length) => replied(0, false, length),
        Inclusion::Refused(stop) => replied(refusal::number(stop), false, 0),
    }
}

// The reply to a caller who had a text or rows written.
#[tactic(auto, unfolding(crate::specs::Reply::length_reply))]
pub fn length_of(answer: Result<usize, Refusal>) -> LengthReply
    ensures { result ≡ length_reply answer }
{
    match answer {
        Ok(length) => LengthReply { refusal: 0, length },
        Err(refusal) => LengthReply {
            refusal: refusal::number(refusal),
            length: 0,
        },
    }
}

// The reply to a caller who asked for the model of a parent.
#[tactic(auto, unfolding(crate::specs::Reply::model_reply))]
pub fn model_of(answer: Result<Model, Refusal>) -> ModelReply
    ensures { result ≡ model_reply answer }
{
    match answer {
        Ok(model) => ModelReply { refusal: 0, model },
        Err(refusal) => ModelReply {
            refusal: refusal::number(refusal),
            model: Model::empty(),
        },
    }
}

// The reply to a caller who had a text read.
pub fn text_of(answer: Result<Declared, Refusal>) -> TextReply
    ensures { result ≡ text_reply answer }
{
    match answer {
        Ok(Declared { parent, model }) => TextReply {
            refusal: 0,
            parent,
            model,
        },
        Err(refusal) => TextReply {
            refusal: refusal::number(refusal),
            parent: 0,
            model: Model::empty(),
        },
    }
}
