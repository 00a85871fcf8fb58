// The book, read from standard input.
ghost use Rattle.std.specs.Prelude.{◌≡◌, ◌<◌, length};
ghost use Rattle.book.specs.Book.{longest_book};
ghost use Rattle.dtd.specs.Input.{Within, Taken, Whole};

use std::io::Read;

// What came of reading.
#[derive(Clone, Copy)]
pub enum Input {
    // how many bytes there were, up to the end of the input or of the buffer
    Book(usize),
    // a read failed: what the book is, is not known
    Failed,
}

// Reads until the input ends, the buffer is full or a read fails.
// The buffer is longer than any book, so an input that fills it is refused, whatever follows.
// The program handles no signal, so no read is interrupted by one.
pub fn read_input<R: Read>(reader: &mut R, buffer: &mut [u8]) -> Input
    requires { longest_book < length buffer.old }
    ensures within { Within result (length buffer.new) }
    ensures same_length { length buffer.new ≡ length buffer.old }
    ensures taken { Taken result (R.remaining reader.old) (R.remaining reader.new) buffer.new }
    ensures whole { Whole result (R.remaining reader.new) buffer.new }
{
    let mut size = 0;
    while size < buffer.len() {
        let Ok(more) = reader.read(&mut buffer[size..]) else {
            return Input::Failed;
        };
        if more == 0 {
            return Input::Book(size);
        }
        size += more;
    }
    Input::Book(size)
}
