//! A law of what is read. Its function's contract is the law; its body is empty.
ghost use Rattle.x509.specs.Partial.Laws.{CertificatesHaveAll};

/// If `read_certificate` reads the octets, all fields are read, with the same values.
pub fn certificates_have_all_fields()
    ensures { CertificatesHaveAll }
{}
