//! Values that may be absent (X.680 25.8).
ghost use Rattle.std.specs.Prelude.{IsTrue};
ghost use Rattle.std.specs.Option.{option_copied};
ghost use Rattle.der_base.specs.Encoding.{content_octets};
ghost use Rattle.der_base.specs.Octets.{shortest_integer};
ghost use Rattle.der_base.specs.Text.{is_text_type};
ghost use Rattle.der_base.specs.Tree.{boolean};
ghost use Rattle.der_writer.specs.Octets.{bit_octets, signed_integer};
ghost use Rattle.der_writer.specs.Written.{PutsOptional, PutsOptionalIdentifier, PutsOptionalText};

use crate::writer::Writer;
use der_base::error::BerError;
use der_base::header::Tag;
use der_values::ObjectIdentifier;

impl<'b> Writer<'b> {
    /// A BOOLEAN, if there is one.
    pub fn put_optional_bool(&mut self, value: Option<bool>)
        ensures { PutsOptional 1 (λ v. content_octets (boolean v)) value self.old self.new }
    {
        match value {
            Some(value) => self.put_bool(value),
            None => self.put_elements(&[]),
        }
    }

    /// An INTEGER that isn't negative, if there is one.
    pub fn put_optional_u64(&mut self, value: Option<u64>)
        ensures { PutsOptional 2 shortest_integer value self.old self.new }
    {
        match value {
            Some(value) => self.put_u64(value),
            None => self.put_elements(&[]),
        }
    }

    /// An INTEGER, if there is one.
    pub fn put_optional_i64(&mut self, value: Option<i64>)
        ensures { PutsOptional 2 signed_integer value self.old self.new }
    {
        match value {
            Some(value) => self.put_i64(value),
            None => self.put_elements(&[]),
        }
    }

    /// A BIT STRING of the unused bits and the octets, as `put_bits`, if there is one.
    pub fn put_optional_bits(&mut self, bits: Option<(u8, &[u8])>)
        ensures { PutsOptional 3 (λ v. bit_octets v.0 v.1.now) bits.entry self.old self.new }
    {
        match bits {
            Some((unused, octets)) => self.put_bits(unused, octets),
            None => self.put_elements(&[]),
        }
    }

    /// An OCTET STRING, if there is one.
    pub fn put_optional_octets(&mut self, octets: Option<&[u8]>)
        ensures { PutsOptional 4 (λ w. w) (option_copied octets.entry) self.old self.new }
    {
        match octets {
            Some(octets) => self.put_octets(octets),
            None => self.put_elements(&[]),
        }
    }

    /// An OBJECT IDENTIFIER with these content octets, as `put_oid`, if there is one.
    pub fn put_optional_oid(&mut self, octets: Option<&[u8]>)
        ensures { PutsOptional 6 (λ w. w) (option_copied octets.entry) self.old self.new }
    {
        match octets {
            Some(octets) => self.put_oid(octets),
            None => self.put_elements(&[]),
        }
    }

    /// An OBJECT IDENTIFIER or a RELATIVE-OID, as `put_identifier`, if there is one.
    pub fn put_optional_identifier(&mut self, value: Option<ObjectIdentifier<'_>>)
        ensures { PutsOptionalIdentifier value.entry self.old self.new }
    {
        match value {
            Some(value) => self.put_identifier(value),
            None => self.put_elements(&[]),
        }
    }

    /// A UTF8String, if there is one.
    pub fn put_optional_utf8(&mut self, text: Option<&str>)
        ensures { PutsOptional 12 (λ w. w) (option_copied text.entry) self.old self.new }
    {
        match text {
            Some(text) => self.put_utf8(text),
            None => self.put_elements(&[]),
        }
    }

    /// A text with these octets, as `put_text`, if there is one.
    pub fn put_optional_text(&mut self, tag: Tag, octets: Option<&[u8]>) -> Result<(), BerError>
        requires { IsTrue (is_text_type tag.0) }
        ensures { PutsOptionalText tag.0 (option_copied octets.entry) self.old result self.new }
    {
        match octets {
            Some(octets) => self.put_text(tag, octets),
            None => {
                self.put_elements(&[]);
                Ok(())
            }
        }
    }
}
