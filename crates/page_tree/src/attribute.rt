// An attribute of an element.

/// An attribute of an element. The value is any text; its entities are written when it is printed.
#[derive(Clone, Copy)]
pub struct Attribute<'a> {
    pub name: &'a [u8],
    pub value: &'a [u8],
}
