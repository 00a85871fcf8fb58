// Writing one declaration into a borrowed buffer.
#![tactic(auto)]

ghost use Rattle.std.specs.Prelude.{◌≡◌, ◌<◌, length};
ghost use Rattle.nameset.specs.Places.{places};
ghost use Rattle.book.specs.Book.{names_in};
ghost use Rattle.book.specs.Access.{LaidOut};
ghost use Rattle.model.specs.Record.{IsModel};
ghost use Rattle.declaration_spelling.specs.House.{declaration};
ghost use Rattle.declaration_writing.specs.Write.{fitted, Writes, WritesDeclaration};

use book::Layout;
use byte_buffer::put_all;
use declaration_text::put_declaration;
use model::Model;
use refusal::Refusal;

// The most bytes that a declaration has.
const LONGEST: usize = 2253;

// The declaration of a model for a parent, of a book that was read, or 12; the answer is its length. It is put together
// aside, so that no byte of the buffer changes unless all fit.
pub fn write_model(
    bytes: &[u8],
    layout: Layout,
    parent: usize,
    m: Model,
    buffer: &mut [u8],
) -> Result<usize, Refusal>
    requires { LaidOut bytes.now layout × (parent < layout.names) × IsModel places layout.names m }
    ensures { Writes (fitted (length buffer.old) (declaration (names_in bytes.now) parent m)) result buffer.old buffer.new }
{
    let mut text = [0u8; LONGEST];
    let size = put_declaration(&mut text, 0, bytes, layout, parent, m);
    if buffer.len() < size {
        return Err(Refusal::BufferTooShort);
    }
    put_all(buffer, 0, book_bytes::part(&text, 0, size));
    Ok(size)
}

// The call: any bytes as the book, any parent, any record, any buffer.
pub fn write_declaration(
    bytes: &[u8],
    parent: usize,
    m: Model,
    buffer: &mut [u8],
) -> Result<usize, Refusal>
    ensures { WritesDeclaration bytes.now parent m result buffer.old buffer.new }
{
    let layout = book_reading::take_book(bytes)?;
    if layout.names <= parent {
        return Err(Refusal::BadParent);
    }
    if !model_check::rows_are_model(layout.names, &m.rows()) {
        return Err(Refusal::NotAModel);
    }
    write_model(bytes, layout, parent, m, buffer)
}
