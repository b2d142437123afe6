// The start and the end of an element.
ghost use Rattle.std.specs.Prelude.{◌++◌, ◌∷◌};
ghost use Rattle.std.specs.List.{flat_map};
ghost use Rattle.page_tree.specs.Print.{attribute_text, closing, opening};
ghost use Rattle.page_tree.specs.Given.{given};
ghost use Rattle.piece_text.specs.Writing.{Writes};

use crate::{Attribute, write_text};
use byte_edge::{Failed, Sink};
use piece_text::write_bytes;

/// Writes the start of an element, or an element that can have nothing within it.
pub fn write_start<K: Sink>(
    name: &[u8],
    attributes: &[Attribute<'_>],
    sink: &mut K,
) -> Result<(), Failed>
    ensures { Writes K.written K.faults sink.old sink.new
        (opening name.now (given attributes.now)) result }
{
    write_bytes(b"<", sink)?;
    write_bytes(name, sink)?;
    write_attributes(attributes, sink)?;
    write_bytes(b">", sink)
}

/// Writes the end of an element.
pub fn write_end<K: Sink>(name: &[u8], sink: &mut K) -> Result<(), Failed>
    ensures { Writes K.written K.faults sink.old sink.new (closing name.now) result }
{
    write_bytes(b"</", sink)?;
    write_bytes(name, sink)?;
    write_bytes(b">", sink)
}

fn write_attributes<K: Sink>(attributes: &[Attribute<'_>], sink: &mut K) -> Result<(), Failed>
    ensures { Writes K.written K.faults sink.old sink.new
        (flat_map attribute_text (given attributes.now)) result }
{
    for attribute in attributes {
        write_attribute(attribute.name, attribute.value, sink)?;
    }
    Ok(())
}

fn write_attribute<K: Sink>(name: &[u8], value: &[u8], sink: &mut K) -> Result<(), Failed>
    ensures { Writes K.written K.faults sink.old sink.new
        (attribute_text (record { name = name.now; value = value.now })) result }
{
    write_bytes(b" ", sink)?;
    write_bytes(name, sink)?;
    write_bytes(b"=\"", sink)?;
    write_text(value, sink)?;
    write_bytes(b"\"", sink)
}
