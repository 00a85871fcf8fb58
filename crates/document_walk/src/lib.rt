// The walk over all pairs of a document, in one pass. The elements that are open are kept in a row of frames.
#![tactic(auto)]

ghost use Rattle.std.specs.Prelude.{◌%◌, ◌≡◌, length};
ghost use Rattle.refusal.specs.Answer.{acceptance};
ghost use Rattle.model_table.specs.Table.{entry_of};
ghost use Rattle.document.specs.Walk.{opening, walk, start};
ghost use Rattle.document_walk.specs.Finish.{Finished};

use document::Frame;
use document_step::{DEEPEST, Standing, Step, judge_pair};
use model::State;
use refusal::{Acceptance, Refusal};

// An element as it is opened.
fn opening(name: u8) -> Frame
    ensures { result ≡ opening name }
{
    Frame {
        name,
        state: State {
            factor: 0,
            taken: false,
        },
    }
}

// The same frame, made anew of its fields. A copy of the whole struct would take along the bytes between its fields, and
// a pair would then take up to twice the time.
fn anew(frame: Frame) -> Frame
    ensures { result ≡ frame }
{
    Frame {
        name: frame.name,
        state: State {
            factor: frame.state.factor,
            taken: frame.state.taken,
        },
    }
}

// The answer at the end of the pairs.
fn finish(s: Standing) -> Acceptance
    ensures { Finished s.begun s.depth s.good result }
{
    if s.depth != 0 {
        return Acceptance::Refused(Refusal::BadDocument);
    }
    if !s.begun {
        return Acceptance::Refused(Refusal::BadDocument);
    }
    if s.good {
        Acceptance::Yes
    } else {
        Acceptance::No
    }
}

// All pairs, from left to right.
pub fn walk_pairs(n: usize, models: &[u8], document: &[u8]) -> Acceptance
    requires { length document.now % 2 ≡ 0 }
    ensures { result ≡ acceptance (walk n (entry_of models.now) start document.now) }
{
    let mut frames = [opening(0); DEEPEST];
    let mut s = Standing {
        begun: false,
        depth: 0,
        top: opening(0),
        good: true,
    };
    for i in 0..document.len() / 2 {
        let x = document[2 * i + 1];
        let step = match judge_pair(n, models, document[2 * i], x, s) {
            Ok(step) => step,
            Err(refusal) => {
                return Acceptance::Refused(refusal);
            }
        };
        s.begun = true;
        match step {
            Step::Open(parent, good) => {
                frames[s.depth] = anew(parent);
                s.depth += 1;
                s.top = opening(x);
                s.good = good;
            }
            Step::Close(good) => {
                s.depth -= 1;
                s.top = anew(frames[s.depth]);
                s.good = good;
            }
            Step::Text(good) => {
                s.good = good;
            }
        }
    }
    finish(s)
}
