// Steps along the bytes of a text: its next unread byte, and where white space or a run of the bytes of words ends.
#![tactic(auto)]

ghost use Rattle.std.specs.Prelude.{◌≡◌, ◌+◌, ◌≤◌, length, drop, unwrap_or};
ghost use Rattle.std.specs.List.{prefix_len};
ghost use Rattle.name.specs.Word.{word_byte};
ghost use Rattle.declaration_spelling.specs.Token.{is_space};
ghost use Rattle.declaration_bytes.specs.Unread.{end_of_text, next_of, run_of};

// The next unread byte, or none at the end of the text.
pub fn next_unread(text: &[u8], at: usize) -> Option<u8>
    ensures { unwrap_or result end_of_text ≡ next_of (drop at text.now) }
{
    text.get(at).copied()
}

// Whether a byte is white space: space, tab, CR or LF.
#[tactic(auto, unfolding(declaration_spelling::specs::Token::is_space))]
fn is_space(byte: u8) -> bool
    ensures { result ≡ is_space byte }
{
    matches!(byte, b' ' | b'\t' | b'\r' | b'\n')
}

// How many bytes of white space stand at the start of a text.
fn spaces(text: &[u8]) -> usize
    ensures run { result ≡ prefix_len is_space text.now }
    ensures within { result ≤ length text.now }
{
    text.iter().take_while(|b| is_space(**b)).count()
}

// How many bytes of words stand at the start of a text.
fn word_bytes(text: &[u8]) -> usize
    ensures run { result ≡ prefix_len word_byte text.now }
    ensures within { result ≤ length text.now }
{
    let classes = name::class_table();
    text.iter()
        .take_while(|b| name::in_word(&classes, **b))
        .count()
}

// The first place from `at` on that holds no white space.
pub fn skip_spaces(text: &[u8], at: usize) -> usize
    requires { at ≤ length text.now }
    ensures { (result ≡ at + run_of is_space (drop at text.now)) × (result ≤ length text.now) }
{
    at + spaces(&text[at..])
}

// The first place from `at` on that holds no byte of words.
pub fn skip_word(text: &[u8], at: usize) -> usize
    requires { at ≤ length text.now }
    ensures { (result ≡ at + run_of word_byte (drop at text.now)) × (result ≤ length text.now) }
{
    at + word_bytes(&text[at..])
}
