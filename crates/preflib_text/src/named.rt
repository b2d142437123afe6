// A candidate's name.
use std::marker::Model;

/// What a line of metadata says of a candidate: the number and the name.
#[derive(Drop)]
pub(crate) struct Named<'a> {
    pub number: u32,
    pub name: &'a [u8],
}

impl<'a> Model for Named<'a> {
    ghost use Rattle.preflib_text.specs.Known.{Named};

    ghost Value = { Named };

    ghost view = { λ n. record { number = n.number; name = n.name.now } };
}
