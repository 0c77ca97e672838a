//! The type of an input, and the field names of its elements.
use der_elements::{Rules, Walk};
use der_known::KnownTypes;
use der_schema::schema::Schema;
use der_schema::{Name, Namer};
use std::fmt;

/// The first known type that matches the input, and the field name of each element, a line each.
#[derive(Clone, Copy)]
pub struct Fields<'a> {
    /// The octets.
    pub input: &'a [u8],
}

impl fmt::Display for Fields<'_> {
    fn fmt<W: fmt::Write>(&self, f: &mut fmt::Formatter<W>) -> fmt::Result {
        let types = KnownTypes::new();
        match types.type_of(self.input, Rules::Ber) {
            Some(schema) => write_fields(f, self.input, schema),
            None => Ok(()),
        }
    }
}

fn write_fields<W: fmt::Write>(
    f: &mut fmt::Formatter<W>,
    input: &[u8],
    schema: Schema<'_>,
) -> fmt::Result {
    f.write_str(schema.name)?;
    let mut walk = Walk::new(input, Rules::Ber, true).keeping_values();
    let mut namer = Namer::new(input, schema);
    'elements: loop {
        match walk.next_element() {
            Ok(Some(element)) => write_field(f, namer.name_of(&element))?,
            _ => return Ok(()),
        }
    }
}

fn write_field<W: fmt::Write>(f: &mut fmt::Formatter<W>, name: Option<Name>) -> fmt::Result {
    f.write_str("\n")?;
    match name {
        Some(name) => f.write_str(name.text),
        None => Ok(()),
    }
}
