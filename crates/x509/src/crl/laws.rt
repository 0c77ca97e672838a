//! A law of what was read. Its function's contract is the law; its body is empty.
ghost use Rattle.x509.specs.Crl.Lists.{SignedOctetsAreRead};

/// The signed octets encode the fields that were read: reading them again gives the same.
pub fn signed_octets_are_read()
    ensures { SignedOctetsAreRead }
{}
