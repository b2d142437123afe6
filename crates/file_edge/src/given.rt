// The words of a command, and the files that they name.
ghost use Rattle.std.specs.Prelude.{◌≡◌, ◌<◌, ◌++◌, ◌∷◌, [], cond, length, map, string_bytes, IfOk, OnOk};
ghost use Rattle.file_edge.specs.Words.{files_of, is_digit, is_file_at, is_option, has_value, names_file, takes_value, words_of};

use std::alloc::{AllocError, Global};

/// The words of a command without the names of files, and these.
#[derive(Drop)]
pub struct Given {
    /// The command's name, and its options with their values.
    pub words: Vec<String>,
    pub files: Vec<String>,
}

impl Given {
    /// Puts a word at the end of the files or of the other words.
    fn push(&mut self, is_file: bool, word: String) -> Result<(), AllocError>
        ensures words { OnOk result (map string_bytes self.new.words.items
            ≡ map string_bytes self.old.words.items ++ cond is_file [] (string_bytes word ∷ [])) }
        ensures files { OnOk result (map string_bytes self.new.files.items
            ≡ map string_bytes self.old.files.items ++ cond is_file (string_bytes word ∷ []) []) }
    {
        if is_file {
            self.files.push(word)?;
        } else {
            self.words.push(word)?;
        }
        Ok(())
    }
}

/// Parts the words of a command, of which the first is its name. A word names a file where it is no option and no option
/// that takes a value is right before it.
pub fn part(alloc: Global, words: &[String]) -> Result<Given, AllocError>
    ensures words { IfOk result (λ given. map string_bytes given.words.items ≡ words_of (map string_bytes words.now)) }
    ensures files { IfOk result (λ given. map string_bytes given.files.items ≡ files_of (map string_bytes words.now)) }
{
    let mut given = Given {
        words: Vec::new(alloc),
        files: Vec::new(alloc),
    };
    for at in 0..words.len() {
        let is_file = is_file_at(words, at);
        given.push(is_file, words[at].clone()?)?;
    }
    Ok(given)
}

/// Whether the word at a place names a file.
fn is_file_at(words: &[String], at: usize) -> bool
    requires { at < length words.now }
    ensures { result ≡ is_file_at (map string_bytes words.now) at }
{
    at > 0 && names_file(words[at - 1].as_str(), words[at].as_str())
}

/// Whether the later of two words in a row names a file.
fn names_file(before: &str, word: &str) -> bool
    ensures { result ≡ names_file (before.now, word.now) }
{
    !is_option(word) && !takes_value(before)
}

/// Whether a word is an option: it begins with a hyphen that goes on, and not with a digit.
fn is_option(word: &str) -> bool
    ensures { result ≡ is_option word.now }
{
    let bytes = word.as_bytes();
    bytes.len() > 1 && bytes[0] == b'-' && !is_digit(bytes[1])
}

fn is_digit(byte: u8) -> bool
    ensures { result ≡ is_digit byte }
{
    byte >= b'0' && byte <= b'9'
}

/// Whether the next word is the value of an option.
fn takes_value(word: &str) -> bool
    ensures { result ≡ takes_value word.now }
{
    is_option(word) && word != "--mark" && !has_value(word.as_bytes())
}

/// Whether an option has its value in itself, after an equals sign.
fn has_value(word: &[u8]) -> bool
    ensures { result ≡ has_value word.now }
{
    let mut found = false;
    for byte in word {
        if *byte == b'=' {
            found = true;
        }
    }
    found
}
