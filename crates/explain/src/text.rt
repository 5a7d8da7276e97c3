// Words and numbers to standard output.

pub(crate) fn say(words: &[u8]) {
    io::write_all(1, words);
}

// Words, then a number.
pub(crate) fn say_with(words: &[u8], n: u32) {
    say(words);
    io::print_decimal(1, u64::from(n));
}
