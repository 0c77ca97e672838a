//! Extensions up to the first invalid one (RFC 5280 4.1.2.9).
ghost use Rattle.std.specs.Prelude.{◌<◌, length, MatchOption};
ghost use Rattle.x509.specs.Certificates.{extension};
ghost use Rattle.x509.specs.Formats.{each, spells};
ghost use Rattle.x509.specs.Lists.{BeginsWithNone};
ghost use Rattle.x509.specs.Partial.Openings.{AreFirst};

use crate::Extensions;
use crate::parts::read_extension;
use der_cursor::Cursor;

/// The extensions at the start of a list, up to the first invalid one.
pub(crate) fn first_extensions(list: &[u8]) -> Extensions<'_>
    ensures { AreFirst extension list.now result.octets.now }
{
    let mut rest = list;
    while let Some(behind) = after_extension(rest) {
        rest = behind;
    }
    Extensions {
        octets: &list[..list.len() - rest.len()],
    }
}

/// The octets after the first extension.
fn after_extension(octets: &[u8]) -> Option<&[u8]>
    ensures { MatchOption result (BeginsWithNone extension octets.now)
        (λ rest. spells (each extension tt) octets.now tt rest.now × (length rest.now < length octets.now)) }
{
    let mut list = Cursor::new(octets);
    match read_extension(&mut list) {
        Ok(_) => Some(list.remaining()),
        Err(_) => None,
    }
}
