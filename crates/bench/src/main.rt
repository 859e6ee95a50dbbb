// The program: standard input, the proved report of it, standard output. Nothing is decided here but
// what is said where one of the two fails: then a line on standard error, and no report of bytes that
// were not read.
#![tactic(auto)]

ghost use Rattle.std.specs.Prelude.{IfOk};
ghost use Rattle.io.specs.Counts.{IsPrefixLen};

use std::io::{self, Cursor, Error, Print, Read, Stdin, Write};

// The buffer holds 65,536 bytes, and the first 41,002 of a file decide its report, whatever follows. So
// an input of any length is answered in this much memory, and no heap is needed that could run out.
fn main(rt: HostRuntime) {
    let mut buffer = [0; 65536];
    match read_input(rt.stdin(), &mut buffer) {
        Ok(length) => print_report(&rt, &buffer[..length]),
        Err(error) => fail(&rt.stderr(), b"bench: standard input", error),
    }
}

// Reads to the input's end, as far as the buffer goes, and gives how many bytes were read.
// Its own loop: std's read on where a signal interrupts a read, and this program tells that as trouble.
fn read_input(mut stdin: Stdin, buffer: &mut [u8]) -> io::Result<usize>
    ensures { IfOk result (λ length. IsPrefixLen length buffer.new) }
{
    let mut done = 0;
    while done < buffer.len() {
        match stdin.read(&mut buffer[done..])? {
            0 => break,
            more => done += more,
        }
    }
    Ok(done)
}

fn print_report(rt: &HostRuntime, file: &[u8]) {
    let text = run::report(file);
    if let Err(error) = rt.write_all(text.as_bytes()) {
        fail(&rt.stderr(), b"bench: standard output", error);
    }
}

// Writes a line: what failed, a colon, and the system's words for the error. Its number, which std
// writes after them in parentheses, is left out.
fn fail(to: &impl Print, what: &[u8], error: Error) {
    let mut text = Cursor::new([0; 256]);
    let _ = write!(text, "{error}");
    let text = text.into_inner();
    let end = text.iter().position(|c| *c == b'(' || *c == 0);
    let words = text[..end.unwrap_or(text.len())].trim_ascii_end();
    let _ = to.write_all(what);
    let _ = to.write_all(b": ");
    let _ = to.write_all(words);
    let _ = to.write_all(b"\n");
}
