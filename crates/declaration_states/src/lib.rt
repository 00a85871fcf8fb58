// What the walk along a text asks of one token: the next state by the table, white space before it, a word's bytes.
#![tactic(auto)]

ghost use Rattle.std.specs.Prelude.{◌≡◌, ◌-◌, ◌≤◌, length, take, drop};
ghost use Rattle.name.specs.Class.{class_table};
ghost use Rattle.name.specs.Rule.{is_name};
ghost use Rattle.declaration_spelling.specs.Kind.{star_kind};
ghost use Rattle.declaration_walk.specs.Walk.{last_state, state_of, step, kind_fits};
ghost use Rattle.declaration_states.specs.Table.{table};

use declaration_scan::{LPAR, QUESTION, STAR, WORD};

// Three of the states; the table has them all. They are numbered as in crates/declaration_walk/specs/Walk.antt.
pub const BEFORE_PARENT: u8 = 0;

pub const BEHIND_END: u8 = 18;

pub const NOWHERE: u8 = 19;

// How many entries the table has: 20 states by 12 kinds.
pub const ENTRIES: usize = 240;

// The next state: a row for each state, a column for each kind of token.
const STATES: [u8; ENTRIES] = [
    // the columns: other, word, EMPTY, #PCDATA, ( ) , | > ? + *
    19, 1, 1, 19, 19, 19, 19, 19, 19, 19, 19, 19, // 0 before_parent: before the parent
    19, 19, 17, 19, 2, 19, 19, 19, 19, 19, 19, 19, // 1 before_model: before the model
    19, 3, 3, 12, 8, 19, 19, 19, 19, 19, 19, 19, // 2 behind_bracket: behind its bracket
    19, 19, 19, 19, 19, 6, 7, 4, 19, 11, 11, 11, // 3 behind_first: behind a name there
    19, 5, 5, 19, 19, 19, 19, 19, 19, 19, 19, 19, // 4 whole_bar: behind a bar of a group that is the whole model
    19, 19, 19, 19, 19, 6, 19, 4, 19, 19, 19, 19, // 5 whole_name: behind a later name of it
    19, 19, 19, 19, 19, 19, 19, 19, 18, 17, 17, 17, // 6 whole_group: behind this group
    19, 10, 10, 19, 8, 19, 19, 19, 19, 19, 19, 19, // 7 before_factor: before a later factor
    19, 9, 9, 19, 19, 19, 19, 19, 19, 19, 19, 19, // 8 in_group: before a name of a factor's group
    19, 19, 19, 19, 19, 10, 19, 8, 19, 19, 19, 19, // 9 group_name: behind a name of it
    19, 19, 19, 19, 19, 17, 7, 19, 19, 11, 11, 11, // 10 behind_names: behind a factor's names
    19, 19, 19, 19, 19, 17, 7, 19, 19, 19, 19, 19, // 11 behind_mark: behind its mark
    19, 19, 19, 19, 19, 13, 19, 14, 19, 19, 19, 19, // 12 behind_text: behind `#PCDATA`
    19, 19, 19, 19, 19, 19, 19, 19, 18, 19, 19, 17, // 13 text_alone: behind `(#PCDATA)`
    19, 15, 15, 19, 19, 19, 19, 19, 19, 19, 19, 19, // 14 text_bar: behind a bar of a group that begins with `#PCDATA`
    19, 19, 19, 19, 19, 16, 19, 14, 19, 19, 19, 19, // 15 text_name: behind a name of it
    19, 19, 19, 19, 19, 19, 19, 19, 19, 19, 19, 17, // 16 before_star: behind this group, before its star
    19, 19, 19, 19, 19, 19, 19, 19, 18, 19, 19, 19, // 17 before_end: before `>`
    19, 19, 19, 19, 19, 19, 19, 19, 19, 19, 19, 19, // 18 behind_end: behind `>`
    19, 19, 19, 19, 19, 19, 19, 19, 19, 19, 19, 19, // 19 nowhere
];

// Whether a word is a name, by the table of classes.
pub fn good_word(classes: &[u8; 256], text: &[u8], from: usize, to: usize) -> bool
    requires { (classes.now ≡ class_table) × (from ≤ to) × (to ≤ length text.now) }
    ensures { result ≡ is_name (take (to - from) (drop from text.now)) }
{
    name::is_name(classes, book_bytes::part(text, from, to))
}

// Whether the white space before a token of this kind may stand there.
#[tactic(auto, unfolding(declaration_walk::specs::Walk::kind_fits, name::specs::Class::between))]
pub fn fits(behind: bool, gap: bool, kind: u8) -> bool
    ensures { result ≡ kind_fits behind gap kind }
{
    match kind {
        WORD..=LPAR => !behind || gap,
        QUESTION..=STAR => !gap,
        _ => true,
    }
}

// The whole table. It is made again wherever it is named, so a loop asks once and lends it.
pub fn state_table() -> [u8; ENTRIES]
    ensures { result ≡ table }
{
    STATES
}

// The next state by the table.
pub fn next_state(states: &[u8; ENTRIES], state: u8, kind: u8) -> u8
    requires { (states.now ≡ table) × (state ≤ last_state) × (kind ≤ star_kind) }
    ensures { (state_of result ≡ step (state_of state) kind) × (result ≤ last_state) }
{
    states[12 * state as usize + kind as usize]
}
