//! The fields of a TBSCertificate, one after another, up to the first invalid one.
ghost use Rattle.std.specs.Option.{option_map};
ghost use Rattle.std.specs.Prelude.{◌≡◌};
ghost use Rattle.der_base.specs.declared.header.Class.{Class};
ghost use Rattle.der_base.specs.declared.rules.Rules.{Rules};
ghost use Rattle.der_values.specs.Kinds.{bit_strings, integers};
ghost use Rattle.x509.specs.Certificates.{algorithm_identifier, algorithm_of, bits_of, key_info_of, name};
ghost use Rattle.x509.specs.Certificates.{subject_public_key_info, validity, version};
ghost use Rattle.x509.specs.Formats.{explicit_or, optional_implicit, primitive};
ghost use Rattle.x509.specs.Partial.Openings.{Field, OptionalField};
ghost use Rattle.x509.specs.Partial.Partials.{AreFirstExtensions, GoesOn, IsTaken, octets_left};

use crate::partial::extensions::first_extensions;
use crate::partial::opening::open_sequence_in;
use crate::parts::{
    read_algorithm, read_key_info, read_name, read_unique_id, read_validity, read_version,
};
use crate::{AlgorithmIdentifier, Extensions, Name, SubjectPublicKeyInfo, Validity, Version};
use der_base::error::BerError;
use der_base::header::{Class, Tag};
use der_cursor::{Cursor, ReadError};
use der_values::BitString;

/// The octets of the fields that aren't read yet; None after an invalid field.
#[derive(Drop)]
pub(crate) struct Fields<'a> {
    left: Option<&'a [u8]>,
}

impl<'a> Fields<'a> {
    /// The fields of a TBSCertificate with these content octets.
    pub(crate) fn new(content: Option<&'a [u8]>) -> Fields<'a>
        ensures { octets_left result ≡ option_map (λ w. w.now) content.entry }
    {
        Fields { left: content }
    }

    pub(crate) fn version(&mut self) -> Option<Version>
        ensures { Field (explicit_or Version.V1 0 version) (octets_left self.old) result (octets_left self.new) }
    {
        let mut fields = self.take()?;
        let found = read_version(&mut fields);
        self.after(fields, found)
    }

    /// The content octets of an INTEGER.
    pub(crate) fn integer(&mut self) -> Option<&'a [u8]>
        ensures { Field (primitive Class.Universal 2 (integers Rules.Der)) (octets_left self.old)
            (option_map (λ w. w.now) result) (octets_left self.new) }
    {
        let mut fields = self.take()?;
        let found = fields.integer();
        self.after(fields, found)
    }

    pub(crate) fn algorithm(&mut self) -> Option<AlgorithmIdentifier<'a>>
        ensures { Field algorithm_identifier (octets_left self.old) (option_map algorithm_of result)
            (octets_left self.new) }
    {
        let mut fields = self.take()?;
        let found = read_algorithm(&mut fields);
        self.after(fields, found)
    }

    pub(crate) fn name(&mut self) -> Option<Name<'a>>
        ensures { Field name (octets_left self.old) (option_map (λ n. n.octets.now) result) (octets_left self.new) }
    {
        let mut fields = self.take()?;
        let found = read_name(&mut fields);
        self.after(fields, found)
    }

    pub(crate) fn validity(&mut self) -> Option<Validity>
        ensures { Field validity (octets_left self.old) result (octets_left self.new) }
    {
        let mut fields = self.take()?;
        let found = read_validity(&mut fields);
        self.after(fields, found)
    }

    pub(crate) fn key_info(&mut self) -> Option<SubjectPublicKeyInfo<'a>>
        ensures { Field subject_public_key_info (octets_left self.old) (option_map key_info_of result)
            (octets_left self.new) }
    {
        let mut fields = self.take()?;
        let found = read_key_info(&mut fields);
        self.after(fields, found)
    }

    /// The UniqueIdentifier under this implicit tag, if it is next.
    pub(crate) fn unique_id(&mut self, number: u32) -> Option<BitString<'a>>
        ensures { OptionalField (optional_implicit number (bit_strings Rules.Der)) (octets_left self.old)
            (option_map bits_of result) (octets_left self.new) }
    {
        let mut fields = self.take()?;
        let found = read_unique_id(&mut fields, number);
        match self.after(fields, found) {
            Some(id) => id,
            None => None,
        }
    }

    /// The extensions up to the first invalid one, if a list of them is next.
    pub(crate) fn extensions(&self) -> Extensions<'a>
        ensures { AreFirstExtensions (octets_left self.now) result.octets.now }
    {
        match self.left {
            Some(octets) => extensions_in(octets),
            None => Extensions { octets: &[] },
        }
    }

    /// A cursor over the octets that are left. Until `after` is called with a valid field, no other field is read.
    fn take(&mut self) -> Option<Cursor<'a>>
        ensures { IsTaken (octets_left self.old) result (octets_left self.new) }
    {
        let octets = self.left?;
        self.left = None;
        Some(Cursor::new(octets))
    }

    /// The value, after which the next field is read. None if the field is invalid.
    fn after<T>(&mut self, fields: Cursor<'a>, found: Result<T, ReadError<BerError>>) -> Option<T>
        ensures { GoesOn fields.entry found (octets_left self.old) result (octets_left self.new) }
    {
        match found {
            Ok(value) => {
                self.left = Some(fields.remaining());
                Some(value)
            }
            Err(_) => None,
        }
    }
}

/// The extensions under the explicit tag [3], up to the first invalid one.
fn extensions_in(octets: &[u8]) -> Extensions<'_>
    ensures { AreFirstExtensions (Some octets.now) result.octets.now }
{
    match open_sequence_in(octets, Class::ContextSpecific, Tag(3)) {
        Some(list) => first_extensions(list),
        None => Extensions { octets: &[] },
    }
}
