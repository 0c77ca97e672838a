//! Certificates and CRLs (RFC 5280 4.1, 5.1), and certification requests (RFC 2986 4).
use crate::algorithms::SIGNATURE;
use crate::attributes::ATTRIBUTES;
use crate::extensions::EXTENSIONS;
use crate::numbered::{ALGORITHM, NAME, SIGNATURE_ALGORITHM, SUBJECT_PUBLIC_KEY_INFO};
use crate::universal::{INTEGER, TIME};
use der_schema::schema::{Component, Type};
use der_schema::{explicit, field, implicit, optional, sequence, sequence_of};

/// A TBSCertificate (RFC 5280 4.1.2).
const TBS_CERTIFICATE: Type = sequence![
    optional!("version" explicit!(0 field!("" INTEGER))),
    field!("serialNumber" INTEGER),
    field!("signature" ALGORITHM),
    field!("issuer" NAME),
    field!("validity" sequence![field!("notBefore" TIME), field!("notAfter" TIME)]),
    field!("subject" NAME),
    field!("subjectPublicKeyInfo" SUBJECT_PUBLIC_KEY_INFO),
    optional!("issuerUniqueID" implicit!(1 string)),
    optional!("subjectUniqueID" implicit!(2 string)),
    optional!("extensions" explicit!(3 field!("" EXTENSIONS))),
];

/// A Certificate (RFC 5280 4.1).
pub(crate) const CERTIFICATE_SEQUENCE: Type = sequence![
    field!("tbsCertificate" TBS_CERTIFICATE),
    field!("signatureAlgorithm" SIGNATURE_ALGORITHM),
    field!("signatureValue" SIGNATURE),
];

static CERTIFICATE_TYPE: Component = field!("certificate" CERTIFICATE_SEQUENCE);

fn certificate() -> &'static Component {
    &CERTIFICATE_TYPE
}

/// A TBSCertList (RFC 5280 5.1.2).
const TBS_CERT_LIST: Type = sequence![
    optional!("version" INTEGER),
    field!("signature" ALGORITHM),
    field!("issuer" NAME),
    field!("thisUpdate" TIME),
    optional!("nextUpdate" TIME),
    optional!("revokedCertificates" sequence_of!(field!("revokedCertificate" sequence![
        field!("userCertificate" INTEGER),
        field!("revocationDate" TIME),
        optional!("crlEntryExtensions" EXTENSIONS),
    ]))),
    optional!("crlExtensions" explicit!(0 field!("" EXTENSIONS))),
];

/// A CertificateList (RFC 5280 5.1).
pub(crate) const CERTIFICATE_LIST_SEQUENCE: Type = sequence![
    field!("tbsCertList" TBS_CERT_LIST),
    field!("signatureAlgorithm" SIGNATURE_ALGORITHM),
    field!("signatureValue" SIGNATURE),
];

static CERTIFICATE_LIST_TYPE: Component = field!("certificateList" CERTIFICATE_LIST_SEQUENCE);

fn certificate_list() -> &'static Component {
    &CERTIFICATE_LIST_TYPE
}

/// A CertificationRequest (RFC 2986 4).
static CERTIFICATION_REQUEST_TYPE: Component = field!("certificationRequest" sequence![
    field!("certificationRequestInfo" sequence![
        field!("version" INTEGER),
        field!("subject" NAME),
        field!("subjectPKInfo" SUBJECT_PUBLIC_KEY_INFO),
        field!("attributes" implicit!(0 ATTRIBUTES)),
    ]),
    field!("signatureAlgorithm" SIGNATURE_ALGORITHM),
    field!("signature" SIGNATURE),
]);

fn certification_request() -> &'static Component {
    &CERTIFICATION_REQUEST_TYPE
}

/// The types of this module, in the order of their numbers.
pub(crate) fn types() -> [&'static Component; 3] {
    [certificate(), certificate_list(), certification_request()]
}
