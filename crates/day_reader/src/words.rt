// Words of day files.
ghost use Rattle.std.specs.Prelude.{◌≡◌, Err, IfOk, IfErr, IfSome, IfNone};
ghost use Rattle.input_text.specs.declared.fault_kind.FaultKind.TheVariants.{WordExpected};
ghost use Rattle.input_text.specs.Token.{with_front};
ghost use Rattle.input_text.specs.Reader.{IsTokenAt, said};
ghost use Rattle.input_text.specs.Reads.{IsBehind, Stops};
ghost use Rattle.day_reader.specs.Keyword.{word, as_keyword};

use crate::keyword::Keyword;
use input_text::{FaultKind, InputFault, Token, Tokens, What};

/// The next token, which has to be a word, and its place.
#[tactic(auto, using(input_text::proofs::Reading::behind_trans))]
pub(crate) fn next_keyword(tokens: &mut Tokens<'_>) -> Result<(Keyword, usize), InputFault>
    ensures keyword { IfOk result (λ found. tokens.old.rest ≡ with_front (record { at = found.1; item = word found.0 }) tokens.new.rest) }
    ensures fault { IfErr result (λ fault. Stops as_keyword tokens.old.rest fault tokens.new.rest) }
    ensures behind { IsBehind tokens.old tokens.new }
{
    let token = tokens.next_token()?;
    match keyword_at(tokens, token) {
        Some(keyword) => Ok((keyword, token.at)),
        None => Err(InputFault::new(FaultKind::WordExpected, token.at)),
    }
}

/// The word that a token is.
pub(crate) fn keyword_at(tokens: &Tokens<'_>, token: Token) -> Option<Keyword>
    requires { IsTokenAt tokens.now.bytes token.at token.stop token.what }
    ensures known { IfSome result (λ keyword. said tokens.now.bytes token.at token.stop token.what ≡ word keyword) }
    ensures unknown { IfNone result (as_keyword (said tokens.now.bytes token.at token.stop token.what) ≡ Err WordExpected) }
{
    match token.what {
        What::Word => Keyword::from_letters(tokens.text(token)),
        _ => None,
    }
}
