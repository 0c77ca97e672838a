//! Names (RFC 5280 4.1.2.4).
ghost use Rattle.std.specs.List.{flat_map};
ghost use Rattle.der_writer.specs.Fields.{Text};
ghost use Rattle.der_writer.specs.Written.{Puts};
ghost use Rattle.x509_keys.specs.Request.Writer.Octets.{name_octets, relative_name_octets};

use der_base::header::{Class, Tag};
use der_writer::Writer;

/// An attribute of a name, alone in its RelativeDistinguishedName (RFC 5280 4.1.2.4).
///
/// ```
/// let common_name = NameAttribute {
///     identifier: b"\x55\x04\x03",
///     string_type: Tag::Utf8String,
///     text: "example.org",
/// };
/// ```
#[derive(Clone, Copy, Debug, Drop)]
pub struct NameAttribute<'a> {
    /// The content octets of the attribute type's OID.
    pub identifier: &'a [u8],
    /// The string type of the text, such as `Utf8String`, `PrintableString` or `Ia5String`.
    pub string_type: Tag,
    /// The text. Its characters aren't checked against the string type.
    pub text: &'a str,
}

/// Puts a Name into a writer.
pub fn put_name(fields: &mut Writer<'_>, attributes: &[NameAttribute<'_>])
    ensures { Puts (name_octets attributes.now) fields.old fields.new }
{
    let sequence = fields.open_sequence();
    put_relative_names(fields, attributes);
    fields.close(sequence);
}

/// Puts a RelativeDistinguishedName for each attribute.
fn put_relative_names(fields: &mut Writer<'_>, attributes: &[NameAttribute<'_>])
    ensures { Puts (flat_map relative_name_octets attributes.now) fields.old fields.new }
{
    fields.put_elements(&[]);
    for attribute in attributes {
        put_relative_name(fields, attribute);
    }
}

fn put_relative_name(fields: &mut Writer<'_>, attribute: &NameAttribute<'_>)
    ensures { Puts (relative_name_octets attribute.now) fields.old fields.new }
{
    let set = fields.open_set();
    let sequence = fields.open_sequence();
    fields.put_oid(attribute.identifier);
    put_text(fields, attribute.string_type, attribute.text);
    fields.close(sequence);
    fields.close(set);
}

/// Puts a text with a string type.
fn put_text(fields: &mut Writer<'_>, string_type: Tag, text: &str)
    ensures { Puts (Text string_type.0 text.now) fields.old fields.new }
{
    fields
        .implicit_of(Class::Universal, string_type.0)
        .put_octets(text.as_bytes());
}
