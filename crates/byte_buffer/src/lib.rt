// Bytes into a lent buffer, from a place on. Each function answers the place behind what it put.
#![tactic(auto)]

ghost use Rattle.std.specs.Prelude.{◌+◌, ◌≤◌, length};
ghost use Rattle.byte_buffer.specs.Put.{Put, shown};

// All of the bytes, one by one: with `copy_from_slice` the library for C would need `memmove` from outside.
pub fn put_all(buffer: &mut [u8], at: usize, bytes: &[u8]) -> usize
    requires { at + length bytes.now ≤ length buffer.old }
    ensures { Put buffer.old at bytes.now result buffer.new }
{
    for i in 0..bytes.len() {
        buffer[at + i] = bytes[i];
    }
    at + bytes.len()
}

// One byte, or nothing for 0.
pub fn put_some(buffer: &mut [u8], at: usize, byte: u8) -> usize
    requires { at + length (shown byte) ≤ length buffer.old }
    ensures { Put buffer.old at (shown byte) result buffer.new }
{
    if byte == 0 {
        return at;
    }
    buffer[at] = byte;
    at + 1
}
