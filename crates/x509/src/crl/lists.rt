//! An iterator over the entries of a CRL.
ghost use Rattle.std.specs.Prelude.{◌≡◌, ◌<◌, ◌^◌, length};
ghost use Rattle.std.specs.Iterator.{at_most};
ghost use Rattle.x509.specs.Crl.Lists.{entries_left, revoked_certificate, revoked_of};
ghost use Rattle.x509.specs.Lists.{YieldsNext};

use crate::crl::entry::{RevokedCertificate, RevokedCertificates, read_revoked_certificate};
use der_cursor::Cursor;

/// Revoked certificates, in order. Ends when no entry is next.
#[derive(Clone, Copy)]
pub struct RevokedIter<'a> {
    left: &'a [u8],
}

impl<'a> RevokedCertificates<'a> {
    /// The revoked certificates.
    pub fn iter(&self) -> RevokedIter<'a>
        ensures octets { entries_left result ≡ self.now.octets.now }
        ensures few { length (entries_left result) < 2 ^ 64 }
    {
        // Callers that count need to know that there are fewer than 2^64.
        let _count = self.octets.len();
        RevokedIter { left: self.octets }
    }
}

impl<'a> Iterator for RevokedIter<'a> {
    type Item = RevokedCertificate<'a>;

    ghost next_gives = { YieldsNext entries_left revoked_of revoked_certificate };

    ghost remaining = { λ s. at_most (length (entries_left s)) };

    fn next(&mut self) -> Option<RevokedCertificate<'a>> {
        let mut list = Cursor::new(self.left);
        let Ok(entry) = read_revoked_certificate(&mut list) else {
            return None;
        };
        self.left = list.remaining();
        Some(entry)
    }
}
