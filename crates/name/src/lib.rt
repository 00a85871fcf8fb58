// The rule for a name's bytes.
#![tactic(auto)]

ghost use Rattle.std.specs.Prelude.{◌≡◌};
ghost use Rattle.name.specs.Class.{start_byte, later_byte, class_of, class_table};
ghost use Rattle.name.specs.Rule.{good_length, good_bytes, is_name};
ghost use Rattle.name.specs.Word.{word_byte};

// The most bytes that a name has.
const LONGEST: usize = 32;

// The classes that the code asks for: of a byte that no name has, and of one that may start a name.
const NEITHER: u8 = 0;

const START: u8 = 2;

// With it the word `#PCDATA` begins.
const HASH: u8 = b'#';

// The class of each byte value: 0 neither, 1 later only, 2 start.
const CLASSES: [u8; 256] = [
    0, 0, 0, 0, 0, 0, 0, 0, 0, 0, 0, 0, 0, 0, 0, 0, 0, 0, 0, 0, 0, 0, 0, 0, 0, 0, 0, 0, 0, 0, 0, 0,
    0, 0, 0, 0, 0, 0, 0, 0, 0, 0, 0, 0, 0, 1, 1, 0, 1, 1, 1, 1, 1, 1, 1, 1, 1, 1, 0, 0, 0, 0, 0, 0,
    0, 2, 2, 2, 2, 2, 2, 2, 2, 2, 2, 2, 2, 2, 2, 2, 2, 2, 2, 2, 2, 2, 2, 2, 2, 2, 2, 0, 0, 0, 0, 2,
    0, 2, 2, 2, 2, 2, 2, 2, 2, 2, 2, 2, 2, 2, 2, 2, 2, 2, 2, 2, 2, 2, 2, 2, 2, 2, 2, 0, 0, 0, 0, 0,
    0, 0, 0, 0, 0, 0, 0, 0, 0, 0, 0, 0, 0, 0, 0, 0, 0, 0, 0, 0, 0, 0, 0, 0, 0, 0, 0, 0, 0, 0, 0, 0,
    0, 0, 0, 0, 0, 0, 0, 0, 0, 0, 0, 0, 0, 0, 0, 0, 0, 0, 0, 0, 0, 0, 0, 0, 0, 0, 0, 0, 0, 0, 0, 0,
    0, 0, 0, 0, 0, 0, 0, 0, 0, 0, 0, 0, 0, 0, 0, 0, 0, 0, 0, 0, 0, 0, 0, 0, 0, 0, 0, 0, 0, 0, 0, 0,
    0, 0, 0, 0, 0, 0, 0, 0, 0, 0, 0, 0, 0, 0, 0, 0, 0, 0, 0, 0, 0, 0, 0, 0, 0, 0, 0, 0, 0, 0, 0, 0,
];

// The whole table. It is made again wherever it is asked for, so a loop asks once and lends it.
#[tactic(auto, unfolding(crate::specs::Class::class_table))]
pub fn class_table() -> [u8; 256]
    ensures { result ≡ class_table }
{
    CLASSES
}

// The class of a byte by the table.
#[tactic(auto, using(crate::proofs::Table::at_byte))]
fn class_in(classes: &[u8; 256], byte: u8) -> u8
    requires { classes.now ≡ class_table }
    ensures { result ≡ class_of byte }
{
    classes[byte as usize]
}

// Whether a name may start with a byte, by the table.
#[tactic(auto, using(crate::proofs::Classes::start_class))]
fn may_start(classes: &[u8; 256], byte: u8) -> bool
    requires { classes.now ≡ class_table }
    ensures { result ≡ start_byte byte }
{
    class_in(classes, byte) == START
}

// Whether a byte may stand later in a name, by the table.
#[tactic(auto, using(crate::proofs::Classes::later_class))]
fn may_follow(classes: &[u8; 256], byte: u8) -> bool
    requires { classes.now ≡ class_table }
    ensures { result ≡ later_byte byte }
{
    class_in(classes, byte) != NEITHER
}

// Whether a byte is one of those that words are made of, by the table.
#[tactic(auto, unfolding(crate::specs::Word::word_byte))]
pub fn in_word(classes: &[u8; 256], byte: u8) -> bool
    requires { classes.now ≡ class_table }
    ensures { result ≡ word_byte byte }
{
    may_follow(classes, byte) || byte == HASH
}

// Whether a name may have this many bytes.
#[tactic(auto, using(std::proofs::lemmas::Bool::Decides::nat_tests), unfolding(crate::specs::Rule::good_length))]
pub fn good_length(size: usize) -> bool
    ensures { result ≡ good_length size }
{
    1 <= size && size <= LONGEST
}

// Whether the bytes are those of a name, its length aside, by the table.
fn good_bytes_in(classes: &[u8; 256], bytes: &[u8]) -> bool
    requires { classes.now ≡ class_table }
    ensures { result ≡ good_bytes bytes.now }
{
    match bytes.split_first() {
        Some((first, later)) => {
            may_start(classes, *first) && later.iter().all(|b| may_follow(classes, *b))
        }
        None => false,
    }
}

// Whether the bytes are those of a name, its length aside.
pub fn good_bytes(bytes: &[u8]) -> bool
    ensures { result ≡ good_bytes bytes.now }
{
    good_bytes_in(&class_table(), bytes)
}

// Whether the bytes are a name, by the table.
#[tactic(auto, unfolding(crate::specs::Rule::is_name))]
pub fn is_name(classes: &[u8; 256], bytes: &[u8]) -> bool
    requires { classes.now ≡ class_table }
    ensures { result ≡ is_name bytes.now }
{
    good_length(bytes.len()) && good_bytes_in(classes, bytes)
}
