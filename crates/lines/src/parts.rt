// Parts of bytes, for any lengths.

// The first n bytes, or all where there are fewer.
pub fn front(d: &[u8], n: usize) -> &[u8] {
    let to = n.min(d.len());
    &d[..to]
}

// The bytes without the zeros at their end.
pub fn trimmed(d: &[u8]) -> &[u8] {
    match d.iter().rposition(|b| *b != 0) {
        Some(last) => &d[..=last],
        None => &[],
    }
}

// Copies all of d into b from `at` on, if it lies inside. Answers whether it does.
pub fn put(b: &mut [u8], at: usize, d: &[u8]) -> bool {
    if b.len() < at || b.len() - at < d.len() {
        return false;
    }
    b[at..at + d.len()].copy_from_slice(d);
    true
}
