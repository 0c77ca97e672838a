//! Messages of PKCS #7 that CMS doesn't have (RFC 2315).
use crate::attributes::ATTRIBUTES;
use crate::cms::{CERTIFICATES, ENCRYPTED_CONTENT, ISSUER_AND_SERIAL};
use crate::numbered::{ALGORITHM, CERTIFICATE_LIST, DIGEST_ALGORITHM};
use crate::universal::{INTEGER, OCTET_STRING};
use der_schema::schema::{Component, Inside, Type};
use der_schema::{field, implicit, optional, sequence, set_of};

/// A RecipientInfo (RFC 2315 10.2).
const RECIPIENT: Type = sequence![
    field!("version" INTEGER),
    field!("issuerAndSerialNumber" ISSUER_AND_SERIAL),
    field!("keyEncryptionAlgorithm" ALGORITHM),
    field!("encryptedKey" OCTET_STRING),
];

/// A SignerInfo (RFC 2315 9.2).
const SIGNER: Type = sequence![
    field!("version" INTEGER),
    field!("issuerAndSerialNumber" ISSUER_AND_SERIAL),
    field!("digestAlgorithm" DIGEST_ALGORITHM),
    optional!("authenticatedAttributes" implicit!(0 ATTRIBUTES)),
    field!("digestEncryptionAlgorithm" ALGORITHM),
    field!("encryptedDigest" OCTET_STRING),
    optional!("unauthenticatedAttributes" implicit!(1 ATTRIBUTES)),
];

const LISTS: Inside = Inside::Each(&field!("" CERTIFICATE_LIST));

/// SignedAndEnvelopedData (RFC 2315 11.1).
static SIGNED_AND_ENVELOPED_DATA_TYPE: Component = field!("" sequence![
    field!("version" INTEGER),
    field!("recipientInfos" set_of!(field!("recipientInfo" RECIPIENT))),
    field!("digestAlgorithms" set_of!(field!("digestAlgorithm" DIGEST_ALGORITHM))),
    field!("encryptedContentInfo" ENCRYPTED_CONTENT),
    optional!("certificates" implicit!(0 CERTIFICATES)),
    optional!("crls" implicit!(1 LISTS)),
    field!("signerInfos" set_of!(field!("signerInfo" SIGNER))),
]);

fn signed_and_enveloped_data() -> &'static Component {
    &SIGNED_AND_ENVELOPED_DATA_TYPE
}

/// The types of this module, in the order of their numbers.
pub(crate) fn types() -> [&'static Component; 1] {
    [signed_and_enveloped_data()]
}
