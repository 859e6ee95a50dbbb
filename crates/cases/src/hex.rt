// Hex digits to bytes. Spaces between digits mean nothing.

// Puts the bytes that the text's digits give into a buffer of zeros, and gives how many digits there
// were; nothing where anything but digits and spaces stands there. Digits past the buffer's end are
// only counted.
pub(crate) fn unhex(text: &[u8], bytes: &mut [u8]) -> Option<usize> {
    let mut count: usize = 0;
    for &character in text {
        if character != b' ' {
            put_digit(bytes, count, digit_of(character)?);
            count += 1;
        }
    }
    Some(count)
}

fn digit_of(character: u8) -> Option<u8> {
    match character {
        b'0'..=b'9' => Some(character - b'0'),
        b'a'..=b'f' => Some(character - b'a' + 10),
        _ => None,
    }
}

// Moves the byte's low digit up and puts a digit below it, so that the first of two digits ends
// as the high one.
fn put_digit(bytes: &mut [u8], count: usize, digit: u8) {
    if let Some(byte) = bytes.get_mut(count / 2) {
        *byte = *byte % 16 * 16 + digit % 16;
    }
}
