//! TLS feature: the extensions of TLS that a server with this certificate has to support (RFC 7633).
ghost use Rattle.der_base.specs.declared.rules.Rules.{Rules};
ghost use Rattle.der_cursor.specs.Formats.{Never, ReadsField, ReadsInput, Required};
ghost use Rattle.der_extensions.specs.Lists.{list_octets};
ghost use Rattle.der_extensions.specs.WebExtensions.{Feature, Features, feature_of};

use crate::list::{Item, SequenceOf, read_list_of_any};
use der_base::error::BerError;
use der_base::header::{Class, Tag};
use der_cursor::{Cursor, ReadError};

/// Any number of features.
pub type TlsFeatures<'a> = SequenceOf<'a, TlsFeature>;

/// An extension of TLS that the server has to support, such as 5, status_request.
#[derive(Clone, Copy, PartialEq)]
pub struct TlsFeature {
    /// The number of the extension. TLS has 16 bits for it; this isn't checked.
    pub number: u32,
}

/// Reads the value of a TLS feature by DER (RFC 7633 4.1): any number of numbers. Trailing data is an error, and so is
/// a number that is negative or above 2^32-1.
pub fn read_tls_features(octets: &[u8]) -> Result<TlsFeatures<'_>, ReadError<BerError>>
    ensures { ReadsInput Rules.Der Features list_octets Never octets.now result }
{
    match read_list_of_any::<TlsFeature, BerError>(octets) {
        Ok(features) => Ok(features),
        Err(e) => Err(e.of_element(Cursor::new(octets), Class::Universal, true, Tag::Sequence)),
    }
}

impl<'a> Item<'a, BerError> for TlsFeature {
    ghost use Rattle.std.specs.Prelude.{ℤ};
    ghost use Rattle.der_cursor.specs.Formats.{Required};
    ghost use Rattle.der_cursor.proofs.FormatLaws.{required_takes};
    ghost use Rattle.der_extensions.specs.WebExtensions.{Feature, feature_of};

    ghost Value = { ℤ };

    ghost field = { Required Feature };

    ghost view = { feature_of };

    fn read(features: &mut Cursor<'a>) -> Result<TlsFeature, ReadError<BerError>> {
        read_feature(features)
    }

    ghost takes = { required_takes Feature };
}

fn read_feature(features: &mut Cursor<'_>) -> Result<TlsFeature, ReadError<BerError>>
    ensures { ReadsField (Required Feature) feature_of Never features.old result features.new }
{
    let number = features.u32()?;
    Ok(TlsFeature { number })
}
