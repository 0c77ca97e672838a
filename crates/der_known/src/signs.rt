//! Signs that tell a known type from others that may have the same elements.
use crate::pkcs12::STORES;
use der_schema::{Octets, Requirement, Sign};

/// A sign: the number of the element in preorder, and the requirement on its content octets.
macro_rules! sign {
    ($element:literal $content:expr) => {
        Sign { element: $element, content: $content }
    };
}

/// A list of content octets.
macro_rules! octets {
    ($($octets:literal),* $(,)?) => {
        &[$(Octets { octets: $octets }),*]
    };
}

/// There is such an element.
const THERE: Requirement = Requirement::Length(0, usize::MAX);

/// The version is 0 or 1.
const VERSION_0_OR_1: Sign = sign!(1 Requirement::OneOf(octets![b"\x00", b"\x01"]));

/// The version is 1.
const VERSION_1: Sign = sign!(1 Requirement::OneOf(octets![b"\x01"]));

/// The version is 3.
const VERSION_3: Sign = sign!(1 Requirement::OneOf(octets![b"\x03"]));

/// The version of an RSAPrivateKey (RFC 8017 A.1.2).
pub(crate) const RSA_PRIVATE_KEY: &[Sign] = &[VERSION_0_OR_1];

/// The version of an ECPrivateKey (RFC 5915 3), and a private key as long as the order of a curve. The shortest order
/// has 112 bits (SEC 2).
pub(crate) const EC_PRIVATE_KEY: &[Sign] = &[
    VERSION_1,
    sign!(2 Requirement::Length(14, usize::MAX)),
];

/// The modulus and the exponent of an RSAPublicKey are odd and positive (RFC 8017 3.1). An exponent has at most 256
/// bits (FIPS 186-5 5.1), but the two numbers of a signature are equally long (RFC 3279 2.2.2, 2.2.3). The exponent
/// isn't 1. It isn't 3 or 5 either, since these are bases of a DHParameter (PKCS #3).
pub(crate) const RSA_PUBLIC_KEY: &[Sign] = &[
    sign!(1 Requirement::OddPositive),
    sign!(1 Requirement::Length(64, usize::MAX)),
    sign!(2 Requirement::OddPositive),
    sign!(2 Requirement::Length(1, 33)),
    sign!(2 Requirement::NoneOf(octets![b"\x01", b"\x03", b"\x05"])),
];

/// The algorithm of a SubjectPublicKeyInfo. Any other algorithm may be that of a signature.
pub(crate) const SUBJECT_PUBLIC_KEY_INFO: &[Sign] = &[sign!(2 Requirement::OneOf(PUBLIC_KEYS))];

/// Algorithms of public keys.
const PUBLIC_KEYS: &[Octets] = octets![
    // rsaEncryption, id-RSASSA-PSS, id-RSAES-OAEP (RFC 8017)
    b"\x2a\x86\x48\x86\xf7\x0d\x01\x01\x01",
    b"\x2a\x86\x48\x86\xf7\x0d\x01\x01\x0a",
    b"\x2a\x86\x48\x86\xf7\x0d\x01\x01\x07",
    // id-dsa, dhpublicnumber, id-keyExchangeAlgorithm, id-ecPublicKey (RFC 3279)
    b"\x2a\x86\x48\xce\x38\x04\x01",
    b"\x2a\x86\x48\xce\x3e\x02\x01",
    b"\x60\x86\x48\x01\x65\x02\x01\x01\x16",
    b"\x2a\x86\x48\xce\x3d\x02\x01",
    // dhKeyAgreement (PKCS #3)
    b"\x2a\x86\x48\x86\xf7\x0d\x01\x03\x01",
    // id-ecDH, id-ecMQV (RFC 5480)
    b"\x2b\x81\x04\x01\x0c",
    b"\x2b\x81\x04\x01\x0d",
    // id-X25519, id-X448, id-Ed25519, id-Ed448 (RFC 8410)
    b"\x2b\x65\x6e",
    b"\x2b\x65\x6f",
    b"\x2b\x65\x70",
    b"\x2b\x65\x71",
    // id-GostR3410-2001 (RFC 4491), id-tc26-gost3410-12-256, id-tc26-gost3410-12-512 (RFC 9215)
    b"\x2a\x85\x03\x02\x02\x13",
    b"\x2a\x85\x03\x07\x01\x01\x01\x01",
    b"\x2a\x85\x03\x07\x01\x01\x01\x02",
    // id-ml-dsa-44, id-ml-dsa-65, id-ml-dsa-87 (RFC 9881)
    b"\x60\x86\x48\x01\x65\x03\x04\x03\x11",
    b"\x60\x86\x48\x01\x65\x03\x04\x03\x12",
    b"\x60\x86\x48\x01\x65\x03\x04\x03\x13",
    // id-alg-ml-kem-512, id-alg-ml-kem-768, id-alg-ml-kem-1024 (RFC 9935)
    b"\x60\x86\x48\x01\x65\x03\x04\x04\x01",
    b"\x60\x86\x48\x01\x65\x03\x04\x04\x02",
    b"\x60\x86\x48\x01\x65\x03\x04\x04\x03",
];

/// The algorithm of an EncryptedPrivateKeyInfo. Any other algorithm may be the digest of a DigestInfo (RFC 8017 9.2).
pub(crate) const ENCRYPTED_PRIVATE_KEY_INFO: &[Sign] = &[
    sign!(2 Requirement::OneOf(PASSWORD_ENCRYPTIONS)),
];

/// Algorithms of encryption with a password.
const PASSWORD_ENCRYPTIONS: &[Octets] = octets![
    // PBES2 (RFC 8018 A.4)
    b"\x2a\x86\x48\x86\xf7\x0d\x01\x05\x0d",
    // PBES1 by MD2, MD5 or SHA-1, with DES or RC2 (RFC 8018 A.3)
    b"\x2a\x86\x48\x86\xf7\x0d\x01\x05\x01",
    b"\x2a\x86\x48\x86\xf7\x0d\x01\x05\x03",
    b"\x2a\x86\x48\x86\xf7\x0d\x01\x05\x04",
    b"\x2a\x86\x48\x86\xf7\x0d\x01\x05\x06",
    b"\x2a\x86\x48\x86\xf7\x0d\x01\x05\x0a",
    b"\x2a\x86\x48\x86\xf7\x0d\x01\x05\x0b",
    // by SHA-1 with RC4, Triple DES or RC2 (RFC 7292 C)
    b"\x2a\x86\x48\x86\xf7\x0d\x01\x0c\x01\x01",
    b"\x2a\x86\x48\x86\xf7\x0d\x01\x0c\x01\x02",
    b"\x2a\x86\x48\x86\xf7\x0d\x01\x0c\x01\x03",
    b"\x2a\x86\x48\x86\xf7\x0d\x01\x0c\x01\x04",
    b"\x2a\x86\x48\x86\xf7\x0d\x01\x0c\x01\x05",
    b"\x2a\x86\x48\x86\xf7\x0d\x01\x0c\x01\x06",
];

/// The version of a PFX, and the type of its content (RFC 7292 4).
pub(crate) const PFX: &[Sign] = &[VERSION_3, sign!(3 Requirement::Selects(STORES))];

/// The type of the content of a ContentInfo. Any other identifier may be that of an algorithm or an attribute.
pub(crate) const CONTENT_INFO: &[Sign] = &[sign!(1 Requirement::OneOf(CONTENT_TYPES))];

/// The known types of contents (RFC 5652 4 to 9, RFC 2315 11, RFC 5083 2.1, RFC 3274 1.1, RFC 5958 2).
const CONTENT_TYPES: &[Octets] = octets![
    // id-data, id-signedData, id-envelopedData, signedAndEnvelopedData, id-digestedData, id-encryptedData
    b"\x2a\x86\x48\x86\xf7\x0d\x01\x07\x01",
    b"\x2a\x86\x48\x86\xf7\x0d\x01\x07\x02",
    b"\x2a\x86\x48\x86\xf7\x0d\x01\x07\x03",
    b"\x2a\x86\x48\x86\xf7\x0d\x01\x07\x04",
    b"\x2a\x86\x48\x86\xf7\x0d\x01\x07\x05",
    b"\x2a\x86\x48\x86\xf7\x0d\x01\x07\x06",
    // id-ct-authData, id-ct-authEnvelopedData, id-ct-compressedData
    b"\x2a\x86\x48\x86\xf7\x0d\x01\x09\x10\x01\x02",
    b"\x2a\x86\x48\x86\xf7\x0d\x01\x09\x10\x01\x17",
    b"\x2a\x86\x48\x86\xf7\x0d\x01\x09\x10\x01\x09",
    // id-ct-KP-aKeyPackage
    b"\x60\x86\x48\x01\x65\x02\x01\x02\x4e\x05",
];

/// A Request with its CertID (RFC 6960 4.1.1): at least this many elements are there.
pub(crate) const OCSP_REQUEST: &[Sign] = &[sign!(9 THERE)];

/// The OCSPResponseStatus (RFC 6960 4.2.1).
pub(crate) const OCSP_RESPONSE: &[Sign] = &[
    sign!(1 Requirement::OneOf(octets![b"\x00", b"\x01", b"\x02", b"\x03", b"\x05", b"\x06"])),
];

/// The version of a TimeStampReq (RFC 3161 2.4.1).
pub(crate) const TIME_STAMP_REQUEST: &[Sign] = &[VERSION_1];

/// The PKIStatus of a TimeStampResp, and a text, a failure or a token (RFC 3161 2.4.2).
pub(crate) const TIME_STAMP_RESPONSE: &[Sign] = &[
    sign!(2 Requirement::OneOf(octets![b"\x00", b"\x01", b"\x02", b"\x03", b"\x04", b"\x05"])),
    sign!(3 THERE),
];

/// The version of a Message (RFC 1157 4, RFC 1901 3).
pub(crate) const SNMP_MESSAGE: &[Sign] = &[VERSION_0_OR_1];

/// The version of an SNMPv3Message (RFC 3412 6).
pub(crate) const SNMP_V3_MESSAGE: &[Sign] = &[VERSION_3];
