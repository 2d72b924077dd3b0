// The words of a line, parted by one space each: two spaces have an empty word between them.

// How many words there are.
pub fn count(line: &[u8]) -> usize {
    line.split(|b| *b == b' ').count()
}

// Word k, the first being word 0; empty where there is none.
pub fn word(line: &[u8], k: usize) -> &[u8] {
    line.split(|b| *b == b' ').nth(k).unwrap_or(b"")
}

// A call: its name, and how many words come after it.
pub type Call<'a> = (&'a [u8], usize);

// The call that a line is. It counts the whole line's words, so a line is asked once.
pub fn call(line: &[u8]) -> Call<'_> {
    (word(line, 0), count(line).saturating_sub(1))
}
