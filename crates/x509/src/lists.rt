//! Iterators over the lists of a certificate: relative names, attributes and extensions.
ghost use Rattle.std.specs.Prelude.{◌≡◌, ◌<◌, ◌^◌, length};
ghost use Rattle.std.specs.Iterator.{at_most};
ghost use Rattle.x509.specs.Certificates.{attribute, attribute_of, extension, extension_of};
ghost use Rattle.x509.specs.Formats.{set};
ghost use Rattle.x509.specs.Lists.{YieldsNext, attributes_left, extensions_left, names_left};

use crate::extension::{Extension, Extensions, read_extension};
use crate::first_element::first_element;
use crate::name::{AttributeTypeAndValue, Name, RelativeDistinguishedName, read_attribute};
use der_base::header::Tag;
use der_cursor::Cursor;

/// The relative names of a name, in order. Ends when no SET is next. The attributes were checked before.
#[derive(Clone, Copy)]
pub struct RelativeNames<'a> {
    left: &'a [u8],
}

/// The attributes of a relative name, in order. Ends when no attribute is next.
#[derive(Clone, Copy)]
pub struct Attributes<'a> {
    left: &'a [u8],
}

/// Extensions, in order. Ends when no extension is next.
#[derive(Clone, Copy)]
pub struct ExtensionIter<'a> {
    left: &'a [u8],
}

impl<'a> Name<'a> {
    /// The relative names.
    ///
    /// ```
    /// for relative_name in certificate.tbs_certificate.subject.relative_names() {
    ///     for attribute in relative_name.attributes() {
    ///         println!(rt; "{}", attribute.identifier)?;
    ///     }
    /// }
    /// ```
    pub fn relative_names(&self) -> RelativeNames<'a>
        ensures octets { names_left result ≡ self.now.octets.now }
        ensures few { length (names_left result) < 2 ^ 64 }
    {
        // Callers that count need to know that there are fewer than 2^64.
        let _count = self.octets.len();
        RelativeNames { left: self.octets }
    }
}

impl<'a> RelativeDistinguishedName<'a> {
    /// The attributes.
    pub fn attributes(&self) -> Attributes<'a>
        ensures octets { attributes_left result ≡ self.now.octets.now }
        ensures few { length (attributes_left result) < 2 ^ 64 }
    {
        // Callers that count need to know that there are fewer than 2^64.
        let _count = self.octets.len();
        Attributes { left: self.octets }
    }
}

impl<'a> Extensions<'a> {
    /// The extensions.
    pub fn iter(&self) -> ExtensionIter<'a>
        ensures octets { extensions_left result ≡ self.now.octets.now }
        ensures few { length (extensions_left result) < 2 ^ 64 }
    {
        // Callers that count need to know that there are fewer than 2^64.
        let _count = self.octets.len();
        ExtensionIter { left: self.octets }
    }
}

impl<'a> Iterator for RelativeNames<'a> {
    type Item = RelativeDistinguishedName<'a>;

    ghost next_gives = { YieldsNext names_left (λ n. n.octets.now) set };

    ghost remaining = { λ s. at_most (length (names_left s)) };

    fn next(&mut self) -> Option<RelativeDistinguishedName<'a>> {
        let first = first_element(self.left, true, Tag::Set)?;
        self.left = first.rest;
        Some(RelativeDistinguishedName {
            octets: first.content,
        })
    }
}

impl<'a> Iterator for Attributes<'a> {
    type Item = AttributeTypeAndValue<'a>;

    ghost next_gives = { YieldsNext attributes_left attribute_of attribute };

    ghost remaining = { λ s. at_most (length (attributes_left s)) };

    fn next(&mut self) -> Option<AttributeTypeAndValue<'a>> {
        if self.left.is_empty() {
            return None;
        }
        let mut attributes = Cursor::new(self.left);
        let Ok(attribute) = read_attribute(&mut attributes) else {
            return None;
        };
        self.left = attributes.remaining();
        Some(attribute)
    }
}

impl<'a> Iterator for ExtensionIter<'a> {
    type Item = Extension<'a>;

    ghost next_gives = { YieldsNext extensions_left extension_of extension };

    ghost remaining = { λ s. at_most (length (extensions_left s)) };

    fn next(&mut self) -> Option<Extension<'a>> {
        if self.left.is_empty() {
            return None;
        }
        let mut list = Cursor::new(self.left);
        let Ok(extension) = read_extension(&mut list) else {
            return None;
        };
        self.left = list.remaining();
        Some(extension)
    }
}
