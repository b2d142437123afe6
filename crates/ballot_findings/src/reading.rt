// The tokens of a file that is a ballot file, one after another.
ghost use Rattle.std.specs.Prelude.{◌≡◌, ◌∷◌, [], ℕ, List, IfSome, IfNone, drop};
ghost use Rattle.input_text.specs.Reader.{placed, said};
ghost use Rattle.ballot_findings.specs.Sites.{goes_on, is_string, strings};

use input_text::{Next, Token, Tokens, What};

/// The next token, where there is one.
pub(crate) fn next_token(tokens: &mut Tokens<'_>) -> Option<Token>
    ensures bytes { tokens.new.bytes ≡ tokens.old.bytes }
    ensures some { IfSome result (λ token. tokens.old.rest.tokens
        ≡ placed tokens.old.bytes token ∷ tokens.new.rest.tokens) }
    ensures none { IfNone result (tokens.old.rest.tokens ≡ []) }
    ensures rest { tokens.new.rest.tokens ≡ drop 1 tokens.old.rest.tokens }
{
    match tokens.next() {
        Next::Token(token) => Some(token),
        Next::End => None,
        Next::Fault(_) => None,
    }
}

/// The next string, where there is one.
pub(crate) fn next_string(tokens: &mut Tokens<'_>) -> Option<Token>
    ensures bytes { tokens.new.bytes ≡ tokens.old.bytes }
    ensures some { IfSome result (λ token. strings tokens.old.rest.tokens
        ≡ placed tokens.old.bytes token ∷ strings tokens.new.rest.tokens) }
    ensures none { IfNone result (strings tokens.old.rest.tokens ≡ []) }
    ensures rest { strings tokens.new.rest.tokens ≡ drop 1 (strings tokens.old.rest.tokens) }
{
    while let Some(token) = next_token(tokens) {
        if is_string(token.what) {
            return Some(token);
        }
    }
    None
}

fn is_string(what: What) -> bool
    ensures { (bytes : List ℕ) (at stop : ℕ) → result ≡ is_string (said bytes at stop what) }
{
    match what {
        What::Number(_) => false,
        What::Minus(_) => false,
        What::Text => true,
        What::Word => false,
    }
}

/// Whether a ballot goes on after a token that says this.
pub(crate) fn goes_on(what: What) -> bool
    ensures { (bytes : List ℕ) (at stop : ℕ) → result ≡ goes_on (said bytes at stop what) }
{
    match what {
        What::Number(n) => n != 0,
        What::Minus(_) => false,
        What::Text => false,
        What::Word => false,
    }
}
