// The program dtd: reads a book from standard input and prints its declarations, or why it was refused.
#![tactic(auto)]

ghost use Rattle.std.specs.Prelude.{OnOk};
ghost use Rattle.std.specs.Io.KnownBytes.{Appends};
ghost use Rattle.book.specs.Taken.{taken_book};
ghost use Rattle.dtd_output.specs.Output.{output_of};
ghost use Rattle.dtd.specs.Ended.{Answers};

use input::Input;
use std::io;
use std::io::{Read, Write};

mod input; // input.rt: the book, read from a reader

// How the program ended: all is printed, a read failed, or a write.
#[derive(Clone, Copy)]
enum Ended {
    Printed,
    Unread,
    Unwritten,
}

// Tells the user something, on standard error; where that fails too, nobody can be told.
fn say(rt: &impl Eprint, text: &str) {
    let _ = rt.eprintln(text);
}

// The whole text.
fn print<W: Write>(to: &mut W, text: &[u8]) -> io::Result<()>
    ensures { OnOk result (Appends (W.contents to.old) (W.contents to.new) text.now) }
{
    to.write_all(text)
}

// Prints all that is due for these bytes as the book.
fn print_output<W: Write>(to: &mut W, bytes: &[u8]) -> io::Result<()>
    ensures { OnOk result (Appends (W.contents to.old) (W.contents to.new) (output_of (taken_book bytes.now))) }
{
    let mut text = [0u8; intake_dtd::LONGEST];
    let length = dtd_output::put_output(&mut text, bytes);
    print(to, &text[..length])
}

// Reads a book and prints what is due for it.
fn answer<R: Read, W: Write>(from: &mut R, to: &mut W) -> Ended
    ensures { Answers result (R.remaining from.old) (W.contents to.old) (W.contents to.new) }
{
    // one byte more than the longest book
    let mut book = [0u8; book_reading::LONGEST + 1];
    match input::read_input(from, &mut book) {
        Input::Book(size) => match print_output(to, &book[..size]) {
            Ok(()) => Ended::Printed,
            Err(_) => Ended::Unwritten,
        },
        Input::Failed => Ended::Unread,
    }
}

fn main(rt: HostRuntime) {
    match answer(&mut rt.stdin(), &mut rt.stdout()) {
        Ended::Printed => {}
        Ended::Unread => say(
            &rt,
            "dtd: standard input could not be read: nothing was printed. Give the book as a file: dtd < BOOK",
        ),
        Ended::Unwritten => say(&rt, "dtd: the output could not be written"),
    }
}

#[cfg(test)]
mod tests {
    use super::*;
    use std::io::{Error, ErrorKind};

    // The names a and b, and one block: a with the child b.
    const BOOK: &[u8] = &[2, 0, 1, b'a', 1, b'b', 1, 0, 0, 0, 1, 1];

    // Gives its bytes, and then fails.
    #[derive(Drop)]
    struct Broken<'a>(&'a [u8]);

    impl Read for Broken<'_> {
        fn read(&mut self, buf: &mut [u8]) -> io::Result<usize> {
            if self.0.is_empty() {
                return Err(Error::from(ErrorKind::Other));
            }
            self.0.read(buf)
        }
    }

    // Takes nothing.
    #[derive(Drop)]
    struct Full;

    impl Write for Full {
        fn write(&mut self, _buf: &[u8]) -> io::Result<usize> {
            Err(Error::from(ErrorKind::StorageFull))
        }

        fn flush(&mut self) -> io::Result<()> {
            Ok(())
        }
    }

    #[test]
    fn prints_what_is_due(rt: HostRuntime) {
        let mut printed = Vec::new(rt.alloc());
        assert!(rt; matches!(answer(&mut &BOOK[..], &mut printed), Ended::Printed));
        assert!(rt; printed.as_slice() == b"<!ELEMENT a (b)>\n".as_slice());
    }

    #[test]
    fn prints_nothing_where_a_read_fails(rt: HostRuntime) {
        let mut printed = Vec::new(rt.alloc());
        assert!(rt; matches!(answer(&mut Broken(BOOK), &mut printed), Ended::Unread));
        assert!(rt; printed.is_empty());
    }

    #[test]
    fn tells_where_a_write_fails(rt: HostRuntime) {
        assert!(rt; matches!(answer(&mut &BOOK[..], &mut Full), Ended::Unwritten));
    }
}
