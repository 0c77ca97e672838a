//! ExtendedKeyUsage: further purposes of a key (RFC 5280 4.2.1.12).
ghost use Rattle.der_base.specs.declared.rules.Rules.{Rules};
ghost use Rattle.der_cursor.specs.Formats.{Never, ReadsInput, Required};
ghost use Rattle.der_extensions.specs.Extensions.{ExtKeyUsageSyntax};
ghost use Rattle.der_extensions.specs.Lists.{list_octets};

use crate::list::{Item, SequenceOf, read_list};
use der_base::error::BerError;
use der_base::header::{Class, Tag};
use der_cursor::{Cursor, ReadError};
use der_values::ObjectIdentifier;

/// At least one purpose of a key.
pub type ExtendedKeyUsage<'a> = SequenceOf<'a, ObjectIdentifier<'a>>;

/// Reads the value of an ExtendedKeyUsage by DER: the identifiers of at least one purpose. Trailing data is an error.
pub fn read_extended_key_usage(octets: &[u8]) -> Result<ExtendedKeyUsage<'_>, ReadError<BerError>>
    ensures { ReadsInput Rules.Der ExtKeyUsageSyntax list_octets Never octets.now result }
{
    match read_list::<ObjectIdentifier<'_>, BerError>(octets) {
        Ok(purposes) => Ok(purposes),
        Err(e) => Err(e.of_element(Cursor::new(octets), Class::Universal, true, Tag::Sequence)),
    }
}

impl<'a> Item<'a, BerError> for ObjectIdentifier<'a> {
    ghost use Rattle.std.specs.Prelude.{List, ℕ};
    ghost use Rattle.der_cursor.specs.Formats.{ObjectIdentifier as IdentifierFormat, Required};
    ghost use Rattle.der_cursor.proofs.FormatLaws.{required_takes};
    ghost use Rattle.der_values.specs.Kinds.{borrowed_octets};

    ghost Value = { List ℕ };

    ghost field = { Required IdentifierFormat };

    ghost view = { borrowed_octets };

    fn read(purposes: &mut Cursor<'a>) -> Result<ObjectIdentifier<'a>, ReadError<BerError>> {
        purposes.oid()
    }

    ghost takes = { required_takes IdentifierFormat };
}
