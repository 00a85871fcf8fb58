// Whether a text has the form of a declaration: one walk along its tokens.
#![tactic(auto)]

ghost use Rattle.std.specs.Prelude.{◌≡◌, true, ◌-◌, ◌≤◌, ◌<◌, length, take, drop};
ghost use Rattle.name.specs.Class.{class_table};
ghost use Rattle.declaration_spelling.specs.Token.{word};
ghost use Rattle.declaration_spelling.specs.Cut.{same};
ghost use Rattle.declaration_spelling.specs.Kind.{pcdata_kind, token_kind};
ghost use Rattle.declaration_walk.specs.Walk.{before_parent, last_state, state_of, may_stand, has_form};
ghost use Rattle.declaration_states.specs.Table.{table};
ghost use Rattle.declaration_form.specs.Step.{begins, token_at, advance, Stands, accepts_from};

use declaration_scan::{EMPTY, PCDATA, Piece, WORD};
use declaration_states::{
    BEFORE_PARENT, BEHIND_END, ENTRIES, NOWHERE, fits, good_word, next_state,
};

// Whether these bytes stand at the start of a text.
#[tactic(auto, using(crate::proofs::Begins::begins_is))]
fn begins_with(text: &[u8], bytes: &[u8]) -> bool
    ensures { result ≡ begins bytes.now text.now }
{
    text.starts_with(bytes)
}

// Whether these bytes stand from one place up to another.
#[tactic(auto, using(crate::proofs::Begins::same_pointwise))]
fn stands_at(text: &[u8], from: usize, to: usize, bytes: &[u8]) -> bool
    requires { (from ≤ to) × (to ≤ length text.now) }
    ensures { result ≡ same (take (to - from) (drop from text.now)) bytes.now }
{
    &text[from..to] == bytes
}

// The kind of a word.
pub fn word_kind(text: &[u8], from: usize, to: usize) -> u8
    requires { (from ≤ to) × (to ≤ length text.now) }
    ensures { (result ≡ token_kind (word (take (to - from) (drop from text.now)))) × (result ≤ pcdata_kind) }
{
    if stands_at(text, from, to, b"EMPTY") {
        return EMPTY;
    }
    if stands_at(text, from, to, b"#PCDATA") {
        return PCDATA;
    }
    WORD
}

// Whether a word of this kind is `#PCDATA` or a name, by the table of classes.
fn may_stand(classes: &[u8; 256], text: &[u8], from: usize, to: usize, kind: u8) -> bool
    requires { (classes.now ≡ class_table) × (from ≤ to) × (to ≤ length text.now) × (kind ≡ token_kind (word (take (to - from) (drop from text.now)))) }
    ensures { result ≡ may_stand (take (to - from) (drop from text.now)) }
{
    kind == PCDATA || good_word(classes, text, from, to)
}

// The state behind a token, by the table of states and that of classes.
fn step(
    states: &[u8; ENTRIES],
    classes: &[u8; 256],
    text: &[u8],
    state: u8,
    behind: bool,
    piece: Piece,
) -> u8
    requires { Stands text.now piece × (state ≤ last_state) × (classes.now ≡ class_table) × (states.now ≡ table) }
    ensures { (state_of result ≡ advance (state_of state) behind piece.gap (token_at text.now piece.from)) × (result ≤ last_state) }
{
    if !fits(behind, piece.gap, piece.kind) {
        return NOWHERE;
    }
    if piece.kind != WORD {
        return next_state(states, state, piece.kind);
    }
    let from = piece.from;
    let to = piece.to;
    let kind = word_kind(text, from, to);
    if !may_stand(classes, text, from, to, kind) {
        return NOWHERE;
    }
    next_state(states, state, kind)
}

// Whether the walk from a place on, before the parent and behind a word, ends behind `>` and at the end of the text.
fn walks(text: &[u8], at: usize) -> bool
    requires { at ≤ length text.now }
    ensures { result ≡ accepts_from text.now before_parent true at }
{
    let states = declaration_states::state_table();
    let classes = name::class_table();
    let mut state = BEFORE_PARENT;
    let mut behind = true;
    for piece in declaration_cursor::cursor_at(text, at) {
        if text.len() <= piece.from {
            return false;
        }
        state = step(&states, &classes, text, state, behind, piece);
        if state == NOWHERE {
            return false;
        }
        behind = piece.kind == WORD;
    }
    state == BEHIND_END
}

// Whether a text has the form of a declaration.
pub fn has_form(text: &[u8]) -> bool
    ensures { result ≡ has_form text.now }
{
    begins_with(text, b"<!ELEMENT") && walks(text, 9)
}
