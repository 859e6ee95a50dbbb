// One line: the letter, and the bytes that its hex digits give.
use crate::answer::answer;
use crate::hex::unhex;
use crate::print::malformed;
use std::io::{Print, Result};

// Prints the answer to one vector, and nothing for a comment or an empty line.
pub(crate) fn answer_line(out: &impl Print, line: &[u8]) -> Result<()> {
    let Some((&letter, text)) = line.split_first() else {
        return Ok(());
    };
    if letter == b'#' {
        return Ok(());
    }
    // No heap: more than any vector has.
    let mut bytes = [0u8; 700];
    match unhex(text, &mut bytes) {
        Some(digits) if digits % 2 == 0 && digits <= 2 * bytes.len() => {
            // An entry for C writes to one part of the bytes while it reads another: it gets them twice.
            let mut lent = bytes;
            let count = digits / 2;
            answer(out, letter, &bytes[..count], &mut lent[..count])
        }
        _ => malformed(out, letter),
    }
}
