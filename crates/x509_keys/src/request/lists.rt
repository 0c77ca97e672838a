//! Iterators over the attributes of a CSR and their values.
ghost use Rattle.std.specs.Prelude.{◌≡◌, ◌<◌, ◌^◌, length};
ghost use Rattle.std.specs.Iterator.{at_most};
ghost use Rattle.der_cursor.specs.Elements.{element_of};
ghost use Rattle.x509_keys.specs.Request.Lists.{attributes_left, values_left};
ghost use Rattle.x509_keys.specs.Request.Requests.{attribute, attribute_of};
ghost use Rattle.x509.specs.Formats.{any};
ghost use Rattle.x509.specs.Lists.{YieldsNext};

use crate::request::attribute::{Attribute, Attributes, Values, read_attribute, read_value};
use der_base::any::Any;
use der_cursor::Cursor;

/// Attributes, in order. Ends when no attribute is next.
#[derive(Clone, Copy)]
pub struct AttributeIter<'a> {
    left: &'a [u8],
}

/// The values of an attribute, in order. Ends when no value is next.
#[derive(Clone, Copy)]
pub struct ValueIter<'a> {
    left: &'a [u8],
}

impl<'a> Attributes<'a> {
    /// The attributes.
    pub fn iter(&self) -> AttributeIter<'a>
        ensures octets { attributes_left result ≡ self.now.octets.now }
        ensures few { length (attributes_left result) < 2 ^ 64 }
    {
        // Callers that count need to know that there are fewer than 2^64.
        let _count = self.octets.len();
        AttributeIter { left: self.octets }
    }
}

impl<'a> Values<'a> {
    /// The values.
    pub fn iter(&self) -> ValueIter<'a>
        ensures octets { values_left result ≡ self.now.octets.now }
        ensures few { length (values_left result) < 2 ^ 64 }
    {
        // Callers that count need to know that there are fewer than 2^64.
        let _count = self.octets.len();
        ValueIter { left: self.octets }
    }
}

impl<'a> Iterator for AttributeIter<'a> {
    type Item = Attribute<'a>;

    ghost next_gives = { YieldsNext attributes_left attribute_of attribute };

    ghost remaining = { λ s. at_most (length (attributes_left s)) };

    fn next(&mut self) -> Option<Attribute<'a>> {
        let mut list = Cursor::new(self.left);
        let Ok(attribute) = read_attribute(&mut list) else {
            return None;
        };
        self.left = list.remaining();
        Some(attribute)
    }
}

impl<'a> Iterator for ValueIter<'a> {
    type Item = Any<'a>;

    ghost next_gives = { YieldsNext values_left element_of any };

    ghost remaining = { λ s. at_most (length (values_left s)) };

    fn next(&mut self) -> Option<Any<'a>> {
        let mut list = Cursor::new(self.left);
        let Ok(value) = read_value(&mut list) else {
            return None;
        };
        self.left = list.remaining();
        Some(value)
    }
}
