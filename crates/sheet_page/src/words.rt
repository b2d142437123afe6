// The words that ask for a page.
ghost use Rattle.std.specs.Prelude.{◌≡◌, ◌↔◌, ◌∷◌, [], IsTrue, MatchOption, codes, map};
ghost use Rattle.std.specs.String.{string_bytes};
ghost use Rattle.tool_edge.specs.Words.{IsAsked};
ghost use Rattle.sheet_page.specs.Words.{TakesFormat, words_of};

use crate::Format;
use meek_words::WordsStop;

/// The format of words that are none at all, or just `--as` and a format's name; before or after these may
/// stand `--mark`, if the name is that of the table.
pub fn takes_format(words: &[String]) -> Result<Format, WordsStop>
    ensures { IsAsked TakesFormat (map string_bytes words.now) result }
{
    match words {
        [] => Ok(Format::Html),
        [option, name] => named(option, name),
        [first, second, third] => marked(first, second, third),
        _ => Err(WordsStop::BadWords),
    }
}

/// The format of two words.
fn named(option: &String, name: &String) -> Result<Format, WordsStop>
    ensures { IsAsked TakesFormat (string_bytes option.now ∷ string_bytes name.now ∷ []) result }
{
    if option.as_str() != "--as" {
        return Err(WordsStop::BadWords);
    }
    match format_of(name.as_str()) {
        Some(format) => Ok(format),
        None => Err(WordsStop::BadWords),
    }
}

/// The format of three words.
fn marked(first: &String, second: &String, third: &String) -> Result<Format, WordsStop>
    ensures { IsAsked TakesFormat
        (string_bytes first.now ∷ string_bytes second.now ∷ string_bytes third.now ∷ []) result }
{
    if are_words(first, second, third, "--as", "csv", "--mark") {
        return Ok(Format::MarkedCsv);
    }
    if are_words(first, second, third, "--mark", "--as", "csv") {
        return Ok(Format::MarkedCsv);
    }
    Err(WordsStop::BadWords)
}

/// Whether these words are just those.
fn are_words(
    first: &String,
    second: &String,
    third: &String,
    one: &str,
    two: &str,
    three: &str,
) -> bool
    ensures { IsTrue result
        ↔ (string_bytes first.now ∷ string_bytes second.now ∷ string_bytes third.now ∷ []
        ≡ one.now ∷ two.now ∷ three.now ∷ []) }
{
    first.as_str() == one && second.as_str() == two && third.as_str() == three
}

/// The format that a name after `--as` stands for.
fn format_of(name: &str) -> Option<Format>
    ensures { MatchOption result ((format : Format) → ¬ (codes "--as" ∷ name.now ∷ [] ≡ words_of format))
        (λ format. codes "--as" ∷ name.now ∷ [] ≡ words_of format) }
{
    match name {
        "html" => Some(Format::Html),
        "csv" => Some(Format::Csv),
        "json" => Some(Format::Json),
        "text" => Some(Format::Text),
        _ => None,
    }
}
