// Texts that lines take by their names.
use crate::line_fault::LineFault;

/// A text that later lines may take by its name.
#[derive(Drop)]
pub(crate) struct Text<'a> {
    pub(crate) name: &'a str,
    pub(crate) bytes: Vec<u8>,
}

/// The bytes of the text of this name.
pub(crate) fn text_named<'a>(texts: &'a [Text<'_>], name: &str) -> Result<&'a [u8], LineFault> {
    for text in texts {
        if text.name == name {
            return Ok(text.bytes.as_slice());
        }
    }
    Err(LineFault::NoSuchText)
}
