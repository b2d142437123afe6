use crate::{InputFault, Token};

/// What a reader of tokens has to give.
#[derive(Clone, Copy, Debug, PartialEq, Eq)]
pub enum Next {
    Token(Token),
    End,
    Fault(InputFault),
}
