// Tests of the acceptance call. Each case writes a line: 1 for yes, 0 for no, else the number of the refusal.
#![tactic(auto)]

use intake_word::{Acceptance, accepts_word};
use model::{Chain, Model};
use std::io;

fn line(answer: Acceptance) -> u8 {
    match answer {
        Acceptance::Yes => 1,
        Acceptance::No => 0,
        Acceptance::Refused(refusal) => refusal::number(refusal),
    }
}

fn show(rt: &impl Print, answer: Acceptance) -> io::Result<()> {
    let n = line(answer);
    println!(rt; "{n}")
}

// A chain of three names, a, b, k, with the factor of each and the modes of three factors.
fn chain_of(count: usize, a: u8, b: u8, k: u8, first: u8, second: u8, third: u8) -> Chain {
    let mut m = Chain {
        count,
        factor: [255u8; 64],
        mode: [0u8; 64],
    };
    m.factor[0] = a;
    m.factor[1] = b;
    m.factor[2] = k;
    m.mode[0] = first;
    m.mode[1] = second;
    m.mode[2] = third;
    m
}

// A record with a text byte.
fn with_text(chain: Chain, text: u8) -> Model {
    Model { chain, text }
}

// A record of three names without text.
fn record_of(count: usize, a: u8, b: u8, k: u8, first: u8, second: u8, third: u8) -> Model {
    with_text(chain_of(count, a, b, k, first, second, third), 0)
}

// (a?,k*,b?)
fn sample() -> Model {
    record_of(3, 0, 2, 1, 1, 3, 1)
}

// Words of (a?,k*,b?).
fn optional_words(rt: &impl Print) -> io::Result<()> {
    let m = sample();
    show(rt, accepts_word(3, m, b""))?;
    show(rt, accepts_word(3, m, b"\x00\x02\x02\x01"))?;
    show(rt, accepts_word(3, m, b"\x02\x02\x01"))?;
    show(rt, accepts_word(3, m, b"\x01"))?;
    show(rt, accepts_word(3, m, b"\x02\x00"))?;
    show(rt, accepts_word(3, m, b"\x00\x00"))?;
    show(rt, accepts_word(3, m, b"\x01\x00"))
}

// Words of (a,k+), and of EMPTY.
fn plain_words(rt: &impl Print) -> io::Result<()> {
    let m = record_of(2, 0, 255, 1, 0, 2, 0);
    show(rt, accepts_word(3, m, b"\x00\x02"))?;
    show(rt, accepts_word(3, m, b"\x00\x02\x02"))?;
    show(rt, accepts_word(3, m, b""))?;
    show(rt, accepts_word(3, m, b"\x00"))?;
    show(rt, accepts_word(3, m, b"\x02"))?;
    show(rt, accepts_word(3, m, b"\x00\x00\x02"))?;
    show(rt, accepts_word(3, m, b"\x00\x02\x01"))?;
    let none = record_of(0, 255, 255, 255, 0, 0, 0);
    show(rt, accepts_word(3, none, b""))?;
    show(rt, accepts_word(3, none, b"\x00"))
}

// Words at their limits: 255 names, 256, and numbers not below 3.
fn word_limits(rt: &impl Print) -> io::Result<()> {
    let m = sample();
    let long = [2u8; 256];
    show(rt, accepts_word(3, m, &long[..255]))?;
    show(rt, accepts_word(3, m, &long))?;
    show(rt, accepts_word(3, m, b"\x03"))?;
    show(rt, accepts_word(3, m, b"\x00\xff"))
}

// Counts of names at their limits.
fn count_limits(rt: &impl Print) -> io::Result<()> {
    let m = sample();
    show(rt, accepts_word(64, m, b"\x3f"))?;
    show(rt, accepts_word(64, m, b"\x02"))?;
    show(rt, accepts_word(65, m, b"\x02"))?;
    show(rt, accepts_word(0, m, b""))?;
    show(rt, accepts_word(65537, m, b"\x02"))
}

// Records that are no chain over three names.
fn bad_records(rt: &impl Print) -> io::Result<()> {
    // F above 64, and above what the factors use.
    show(rt, accepts_word(3, record_of(65, 0, 2, 1, 1, 3, 1), b""))?;
    show(rt, accepts_word(3, record_of(4, 0, 2, 1, 1, 3, 1), b""))?;
    // An empty factor, a value from F on, and 254.
    show(rt, accepts_word(3, record_of(3, 0, 2, 0, 1, 3, 1), b""))?;
    show(rt, accepts_word(3, record_of(2, 0, 2, 1, 1, 3, 0), b""))?;
    show(rt, accepts_word(3, record_of(2, 0, 1, 254, 1, 3, 0), b""))?;
    // A number from N on that a factor holds.
    show(rt, accepts_word(2, sample(), b""))?;
    // A mode above 3, and one from F on that is not 0.
    show(rt, accepts_word(3, record_of(3, 0, 2, 1, 1, 4, 1), b""))?;
    show(rt, accepts_word(3, record_of(2, 0, 0, 1, 1, 3, 1), b""))
}

// The last places of a record.
fn last_places(rt: &impl Print) -> io::Result<()> {
    let mut factor = chain_of(3, 0, 2, 1, 1, 3, 1);
    factor.factor[63] = 0;
    show(rt, accepts_word(63, with_text(factor, 0), b""))?;
    show(rt, accepts_word(64, with_text(factor, 0), b"\x3f\x02"))?;
    let mut mode = chain_of(3, 0, 2, 1, 1, 3, 1);
    mode.mode[63] = 1;
    show(rt, accepts_word(3, with_text(mode, 0), b""))
}

// Words of (#PCDATA) and of (#PCDATA|a|k)*: text makes no difference to child names.
fn text_words(rt: &impl Print) -> io::Result<()> {
    let none = with_text(chain_of(0, 255, 255, 255, 0, 0, 0), 1);
    show(rt, accepts_word(3, none, b""))?;
    show(rt, accepts_word(3, none, b"\x00"))?;
    let mixed = with_text(chain_of(1, 0, 255, 0, 3, 0, 0), 1);
    show(rt, accepts_word(3, mixed, b""))?;
    show(rt, accepts_word(3, mixed, b"\x02\x00\x00\x02"))?;
    show(rt, accepts_word(3, mixed, b"\x01"))
}

// Text bytes that do not fit: 2, 255, and 1 with a mode below 3 or with two factors.
fn text_limits(rt: &impl Print) -> io::Result<()> {
    let mixed = chain_of(1, 0, 255, 0, 3, 0, 0);
    show(rt, accepts_word(3, with_text(mixed, 2), b""))?;
    show(rt, accepts_word(3, with_text(mixed, 255), b""))?;
    show(
        rt,
        accepts_word(3, with_text(chain_of(1, 0, 255, 0, 2, 0, 0), 1), b"\x00"),
    )?;
    show(
        rt,
        accepts_word(3, with_text(chain_of(1, 0, 255, 255, 0, 0, 0), 1), b"\x00"),
    )?;
    show(
        rt,
        accepts_word(3, with_text(chain_of(2, 0, 255, 1, 3, 3, 0), 1), b""),
    )?;
    show(
        rt,
        accepts_word(3, with_text(chain_of(2, 0, 255, 1, 3, 3, 0), 0), b""),
    )
}

// Of two refusals the first of 3, 10, 11 is given.
fn order(rt: &impl Print) -> io::Result<()> {
    let bad = record_of(4, 0, 2, 1, 1, 3, 1);
    show(rt, accepts_word(65, bad, b"\xff"))?;
    show(rt, accepts_word(0, sample(), b"\xff"))?;
    show(rt, accepts_word(3, bad, b"\xff"))?;
    show(rt, accepts_word(3, sample(), b"\xff"))
}

fn main(rt: HostRuntime) -> io::Result<()> {
    optional_words(&rt)?;
    plain_words(&rt)?;
    word_limits(&rt)?;
    count_limits(&rt)?;
    bad_records(&rt)?;
    last_places(&rt)?;
    order(&rt)?;
    text_words(&rt)?;
    text_limits(&rt)
}
