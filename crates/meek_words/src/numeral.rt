//! Numbers as a command line writes them.
ghost use Rattle.std.specs.Option.{SomeIff};
ghost use Rattle.meek_words.specs.Numerals.{IsNumeral, IsNumeralUpTo, number_of};

/// The number that 1 to 9 digits write.
pub(crate) fn numeral(word: &[u8]) -> Option<u32>
    ensures { SomeIff result (IsNumeral word.now) (number_of word.now) }
{
    if word.is_empty() || word.len() > 9 {
        return None;
    }
    let mut number = 0;
    for digit in word {
        if !digit.is_ascii_digit() {
            return None;
        }
        number = number * 10 + u32::from(*digit - b'0');
    }
    Some(number)
}

/// The number that 1 to 9 digits write, if it is one from 1 to the greatest.
pub(crate) fn numeral_up_to(greatest: u32, word: &str) -> Option<u32>
    ensures { SomeIff result (IsNumeralUpTo greatest word.now) (number_of word.now) }
{
    let number = numeral(word.as_bytes())?;
    if 1 <= number && number <= greatest {
        Some(number)
    } else {
        None
    }
}
