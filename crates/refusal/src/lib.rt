// Why a call stopped.
#![tactic(auto)]

ghost use Rattle.std.specs.Prelude.{◌≡◌};
ghost use Rattle.refusal.specs.Table.{number_of};
ghost use Rattle.refusal.specs.Answer.{answer_number};

// One variant for each number of papers 01 and 02, by rising number. The comments are the refusals' texts:
// tests/refusals_check.py compares every other place that has a number, a name or a text with this list.
#[derive(Clone, Copy)]
pub enum Refusal {
    // 1: the book has more than 60,000 bytes.
    BookTooLong,
    // 2: the book ends before one of its fields is complete.
    BytesMissing,
    // 3: the count of names is 0 or above 64.
    BadNameCount,
    // 4: a name in the book has a length other than 1 to 32, or a byte that breaks the rule for names.
    BadName,
    // 5: a name in the book is not above the name before it.
    NameNotAbove,
    // 6: a parent or child number in the book is not below the count of names.
    NumberNotBelow,
    // 7: the book has bytes left over after its last block.
    BytesLeftOver,
    // 8: the parent asked for is not below the count of names.
    BadParent,
    // 9: no block in the book has the parent whose model is wanted from the sample.
    NoBlock,
    // 10: the model record is not a chain over the names, or its text byte does not fit the chain.
    NotAModel,
    // 11: the word has more than 255 names, or a number that is not below the count of names.
    BadWord,
    // 12: the output buffer is shorter than the text to be written, or has fewer than 65 places for a word.
    BufferTooShort,
    // 13: the text does not have the form of a declaration.
    NotADeclaration,
    // 14: a name in the text, the parent's included, is not in the book.
    UnknownName,
    // 15: the model in the text has a name twice.
    NameTwice,
    // 16: a text byte in the book is above 1.
    BadText,
    // 17: a name in the book is neither a parent nor a child in any block.
    UnusedName,
    // 18: the document has an odd length, a pair with a bad kind or number, or pairs that do not form one root element.
    BadDocument,
    // 19: the document opens an element at depth 33.
    TooDeep,
}

// The answer of a call for a yes or no, or why it stopped.
#[derive(Clone, Copy)]
pub enum Acceptance {
    Yes,
    No,
    Refused(Refusal),
}

// The refusal's number in the papers.
pub fn number(refusal: Refusal) -> u8
    ensures { result ≡ number_of refusal }
{
    match refusal {
        Refusal::BookTooLong => 1,
        Refusal::BytesMissing => 2,
        Refusal::BadNameCount => 3,
        Refusal::BadName => 4,
        Refusal::NameNotAbove => 5,
        Refusal::NumberNotBelow => 6,
        Refusal::BytesLeftOver => 7,
        Refusal::BadParent => 8,
        Refusal::NoBlock => 9,
        Refusal::NotAModel => 10,
        Refusal::BadWord => 11,
        Refusal::BufferTooShort => 12,
        Refusal::NotADeclaration => 13,
        Refusal::UnknownName => 14,
        Refusal::NameTwice => 15,
        Refusal::BadText => 16,
        Refusal::UnusedName => 17,
        Refusal::BadDocument => 18,
        Refusal::TooDeep => 19,
    }
}

// The number of the refusal, or 0 where the call was not refused.
pub fn answer_number<T>(answer: &Result<T, Refusal>) -> u8
    ensures { result ≡ answer_number answer.now }
{
    match answer {
        Ok(_) => 0,
        Err(refusal) => number(*refusal),
    }
}
