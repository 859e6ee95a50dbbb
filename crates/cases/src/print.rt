// What is printed: one line for each vector.
use std::io::{Print, Result};

// The letter, the number as two hex digits, and the bytes.
pub(crate) fn print_answer(out: &impl Print, letter: u8, number: u32, bytes: &[u8]) -> Result<()> {
    print_number(out, letter, number)?;
    print_line_end(out, bytes)
}

// The same with an index as two hex digits, or as many as it has, after the number.
pub(crate) fn print_indexed(
    out: &impl Print,
    letter: u8,
    number: u32,
    index: usize,
    bytes: &[u8],
) -> Result<()> {
    print_number(out, letter, number)?;
    print!(out; "{index:02x}")?;
    out.write_all(b" ")?;
    print_line_end(out, bytes)
}

// A line that is no vector prints no answer, but something that no answer is, so that it shows.
pub(crate) fn malformed(out: &impl Print, letter: u8) -> Result<()> {
    out.write_all(&[letter, b' ', b'?', b'?', b'\n'])
}

fn print_number(out: &impl Print, letter: u8, number: u32) -> Result<()> {
    out.write_all(&[letter, b' '])?;
    print!(out; "{number:02x}")?;
    out.write_all(b" ")
}

fn print_line_end(out: &impl Print, bytes: &[u8]) -> Result<()> {
    print_bytes(out, bytes)?;
    out.write_all(b"\n")
}

// Prints two lowercase digits for each byte.
fn print_bytes(out: &impl Print, bytes: &[u8]) -> Result<()> {
    for byte in bytes {
        print!(out; "{byte:02x}")?;
    }
    Ok(())
}
