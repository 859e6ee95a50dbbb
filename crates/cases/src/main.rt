// Reads vectors on standard input, one a line, calls the vote engine with each and prints what it
// answers, to be compared with answers that come from the document and not from the engine.
//
// A line is a letter and hex digits; `answer` and `entry` say which call a letter stands for and
// what its bytes are. A line that begins with '#' is a comment.
#![tactic(auto)]

mod answer;
mod entry;
mod hex;
mod line;
mod number;
mod print;

ghost use Rattle.std.specs.Prelude.{◌≤◌, length};

use std::io::{Print, Read, Result, Stdin};

fn main(rt: HostRuntime) -> Result<()> {
    // More than any file of vectors has, and no heap. What is past it has no answers, which shows.
    let mut file = [0u8; 131072];
    let count = read_full(rt.stdin(), &mut file);
    answer_lines(&rt, &file[..count])
}

// Reads until the buffer is full, the input ends or a read fails, and gives the number of bytes. The
// library's loops give no number where a read fails, and what was read before is still answered. Much as
// `read_input` of the bench: a crate for this one loop of two programs is no plainer.
fn read_full(mut stdin: Stdin, buffer: &mut [u8]) -> usize
    ensures { result ≤ length buffer.new }
{
    let mut done: usize = 0;
    while done < buffer.len() {
        match stdin.read(&mut buffer[done..]) {
            Ok(0) | Err(_) => break,
            Ok(more) => done += more,
        }
    }
    done
}

// A `while`: the check does not cover a `for` over `split`, whose closure is its own type.
fn answer_lines(out: &impl Print, text: &[u8]) -> Result<()> {
    let mut rest = text;
    while !rest.is_empty() {
        let end = rest.iter().position(|c| *c == b'\n').unwrap_or(rest.len());
        line::answer_line(out, &rest[..end])?;
        rest = rest.get(end + 1..).unwrap_or(&[]);
    }
    Ok(())
}
