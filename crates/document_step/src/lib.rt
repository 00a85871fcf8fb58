// One pair of a document: what it does to the elements that are open, or why the walk stops at it.
#![tactic(auto)]

ghost use Rattle.model_table.specs.Table.{entry_of};
ghost use Rattle.document.specs.Walk.{progress, opened, closed, texted, one_pair};
ghost use Rattle.document_step.specs.Step.{Judged};

use document::Frame;
use model_table_step::{allows_text, may_close, move_in};
use refusal::Refusal;

// The most elements that may be open.
pub const DEEPEST: usize = 32;

// Where a walk stands: whether a pair came before, how many elements are open, the innermost of them, and whether the
// document is good so far.
#[derive(Clone, Copy)]
pub struct Standing {
    pub begun: bool,
    pub depth: usize,
    pub top: Frame,
    pub good: bool,
}

// What a pair does: it opens an element in the innermost one, which is handed back as it is then; it closes the
// innermost one; or it is text. The flag says whether the document is good so far.
#[derive(Clone, Copy)]
pub enum Step {
    Open(Frame, bool),
    Close(bool),
    Text(bool),
}

// An open of the name x.
fn on_open(models: &[u8], x: u8, s: Standing) -> Result<Step, Refusal>
    ensures { Judged (opened (entry_of models.now) x) x s.begun s.depth s.top s.good result }
{
    if s.depth == 0 {
        if s.begun {
            return Err(Refusal::BadDocument);
        }
        return Ok(Step::Open(s.top, s.good));
    }
    if DEEPEST <= s.depth {
        return Err(Refusal::TooDeep);
    }
    match move_in(models, s.top.name, s.top.state, x) {
        Some(state) => Ok(Step::Open(
            Frame {
                name: s.top.name,
                state,
            },
            s.good,
        )),
        None => Ok(Step::Open(s.top, false)),
    }
}

// A close of the name x.
fn on_close(models: &[u8], x: u8, s: Standing) -> Result<Step, Refusal>
    ensures { Judged (closed (entry_of models.now) x) x s.begun s.depth s.top s.good result }
{
    if s.depth == 0 || x != s.top.name {
        return Err(Refusal::BadDocument);
    }
    Ok(Step::Close(may_close(models, s.top.name, s.top.state) && s.good))
}

// Text, with the number x.
fn on_text(models: &[u8], x: u8, s: Standing) -> Result<Step, Refusal>
    ensures { Judged (texted (entry_of models.now) x) x s.begun s.depth s.top s.good result }
{
    if s.depth == 0 || x != 0 {
        return Err(Refusal::BadDocument);
    }
    Ok(Step::Text(allows_text(models, s.top.name) && s.good))
}

// A pair of this kind and number, over n names.
pub fn judge_pair(n: usize, models: &[u8], kind: u8, x: u8, s: Standing) -> Result<Step, Refusal>
    ensures { Judged (λ p g. one_pair n (entry_of models.now) (progress p g) kind x) x s.begun s.depth s.top s.good result }
{
    if n <= x as usize {
        return Err(Refusal::BadDocument);
    }
    match kind {
        0 => on_open(models, x, s),
        1 => on_close(models, x, s),
        2 => on_text(models, x, s),
        3..=255 => Err(Refusal::BadDocument),
    }
}
