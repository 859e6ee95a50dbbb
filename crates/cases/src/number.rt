// The numbers in a vector, read apart from the code that the vectors try.

// The number in four bytes from an index on, high byte first, and 0 where they pass the end.
pub(crate) fn number_at(bytes: &[u8], at: usize) -> u32 {
    match bytes.get(at..).and_then(|rest| rest.first_chunk::<4>()) {
        Some(four) => u32::from_be_bytes(*four),
        None => 0,
    }
}
