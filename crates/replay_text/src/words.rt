// A look at words that were lent: whether they are zero where they have to be.
use crate::write::Output;
use std::io;
use std::io::Write;

// Says `dirty` if a word from a place on is not zero.
pub fn tell_dirt(to: &mut Output, words: &[u64], from: usize) -> io::Result<()> {
    if !is_zero_from(words, from) {
        write!(to, " dirty")?;
    }
    Ok(())
}

// Whether the words from a place on are zero.
pub fn is_zero_from(words: &[u64], from: usize) -> bool {
    words.iter().skip(from).all(|word| *word == 0)
}
