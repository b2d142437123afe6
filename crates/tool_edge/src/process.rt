// What the process gives to a `main`.
use std::{env, io};

/// What a program ends with where the system gave it no words. No [`End`](crate::End) has this number.
pub const NO_WORDS: u8 = 6;

/// The words after the program's name, or why the system gave none: one that isn't UTF-8, or want of
/// memory.
pub fn words_of(rt: &HostRuntime) -> io::Result<Vec<String>> {
    let mut words = Vec::new(rt.alloc());
    for word in env::args(rt)?.skip(1) {
        words.push(word)?;
    }
    Ok(words)
}
