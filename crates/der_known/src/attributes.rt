//! Attributes of requests, keys and messages (RFC 2985 5, RFC 5652 11, RFC 5035 3, RFC 3161 A).
use crate::extensions::EXTENSIONS;
use crate::names::GENERAL_NAMES;
use crate::numbered::{
    ATTRIBUTE, BAG_ATTRIBUTE, CAPABILITIES, CONTENT_INFO, DIGEST_ALGORITHM, MESSAGE_ATTRIBUTE,
    SIGNER_INFO, SIGNING_CERTIFICATE, SIGNING_CERTIFICATE_V2,
};
use crate::universal::{
    BMP_STRING, DIRECTORY_STRING, INTEGER, OBJECT_IDENTIFIER, OCTET_STRING, TIME,
};
use der_schema::schema::{Component, Inside, Selection, Type};
use der_schema::{field, optional, selection, sequence, sequence_of, set_of, tagged};

const ISSUER_SERIAL: Type = sequence![
    field!("issuer" tagged!(Universal 16 Constructed GENERAL_NAMES)),
    field!("serialNumber" INTEGER),
];

const ANY_SEQUENCE: Type = tagged!(Universal 16 Constructed Inside::Free);

/// A SigningCertificate (RFC 5035 5).
static SIGNING_CERTIFICATE_TYPE: Component = field!("" sequence![
    field!("certs" sequence_of!(field!("essCertID" sequence![
        field!("certHash" OCTET_STRING),
        optional!("issuerSerial" ISSUER_SERIAL),
    ]))),
    optional!("policies" ANY_SEQUENCE),
]);

fn signing_certificate() -> &'static Component {
    &SIGNING_CERTIFICATE_TYPE
}

/// A SigningCertificateV2 (RFC 5035 3).
static SIGNING_CERTIFICATE_V2_TYPE: Component = field!("" sequence![
    field!("certs" sequence_of!(field!("essCertIDv2" sequence![
        optional!("hashAlgorithm" DIGEST_ALGORITHM),
        field!("certHash" OCTET_STRING),
        optional!("issuerSerial" ISSUER_SERIAL),
    ]))),
    optional!("policies" ANY_SEQUENCE),
]);

fn signing_certificate_v2() -> &'static Component {
    &SIGNING_CERTIFICATE_V2_TYPE
}

/// SMIMECapabilities (RFC 8551 2.5.2).
static CAPABILITIES_TYPE: Component = field!("" sequence_of!(
    field!("smimeCapability" sequence![
        field!("capabilityID" OBJECT_IDENTIFIER),
        optional!("parameters" Type::Any),
    ])
));

fn capabilities() -> &'static Component {
    &CAPABILITIES_TYPE
}

/// The values of attributes.
const VALUES: &[Selection] = &[
    // id-contentType, id-messageDigest, id-signingTime, id-countersignature
    selection!(b"\x2a\x86\x48\x86\xf7\x0d\x01\x09\x03" field!("contentType" OBJECT_IDENTIFIER)),
    selection!(b"\x2a\x86\x48\x86\xf7\x0d\x01\x09\x04" field!("messageDigest" OCTET_STRING)),
    selection!(b"\x2a\x86\x48\x86\xf7\x0d\x01\x09\x05" field!("signingTime" TIME)),
    selection!(b"\x2a\x86\x48\x86\xf7\x0d\x01\x09\x06" field!("countersignature" SIGNER_INFO)),
    // challengePassword, unstructuredName, extensionRequest
    selection!(b"\x2a\x86\x48\x86\xf7\x0d\x01\x09\x07" field!("challengePassword" DIRECTORY_STRING)),
    selection!(b"\x2a\x86\x48\x86\xf7\x0d\x01\x09\x02" field!("unstructuredName" DIRECTORY_STRING)),
    selection!(b"\x2a\x86\x48\x86\xf7\x0d\x01\x09\x0e" field!("extensionRequest" EXTENSIONS)),
    // smimeCapabilities
    selection!(b"\x2a\x86\x48\x86\xf7\x0d\x01\x09\x0f" field!("smimeCapabilities" CAPABILITIES)),
    // friendlyName, localKeyId
    selection!(b"\x2a\x86\x48\x86\xf7\x0d\x01\x09\x14" field!("friendlyName" BMP_STRING)),
    selection!(b"\x2a\x86\x48\x86\xf7\x0d\x01\x09\x15" field!("localKeyId" OCTET_STRING)),
    // id-aa-signingCertificate, id-aa-signingCertificateV2, id-aa-timeStampToken
    selection!(b"\x2a\x86\x48\x86\xf7\x0d\x01\x09\x10\x02\x0c" field!("signingCertificate" SIGNING_CERTIFICATE)),
    selection!(b"\x2a\x86\x48\x86\xf7\x0d\x01\x09\x10\x02\x2f" field!("signingCertificateV2" SIGNING_CERTIFICATE_V2)),
    selection!(b"\x2a\x86\x48\x86\xf7\x0d\x01\x09\x10\x02\x0e" field!("timeStampToken" CONTENT_INFO)),
];

macro_rules! attribute {
    ($identifier:literal $values:literal) => {
        sequence![
            field!($identifier tagged!(Universal 6 Primitive Inside::Selects(VALUES))),
            field!($values set_of!(field!("value" Type::Selected))),
        ]
    };
}

/// An attribute of a request or a key (RFC 2986 4.1, RFC 5958 2).
static ATTRIBUTE_TYPE: Component = field!("attribute" attribute!("type" "values"));

fn attribute() -> &'static Component {
    &ATTRIBUTE_TYPE
}

/// What is inside a SET OF attributes.
pub(crate) const ATTRIBUTES: Inside = Inside::Each(&field!("" ATTRIBUTE));

/// An attribute of a message (RFC 5652 5.3).
static MESSAGE_ATTRIBUTE_TYPE: Component = field!("attribute" attribute!("attrType" "attrValues"));

fn message_attribute() -> &'static Component {
    &MESSAGE_ATTRIBUTE_TYPE
}

/// What is inside a SET OF attributes of a message.
pub(crate) const MESSAGE_ATTRIBUTES: Inside = Inside::Each(&field!("" MESSAGE_ATTRIBUTE));

/// An attribute of a bag (RFC 7292 4.2).
static BAG_ATTRIBUTE_TYPE: Component = field!("pkcs12Attribute" attribute!("attrId" "attrValues"));

fn bag_attribute() -> &'static Component {
    &BAG_ATTRIBUTE_TYPE
}

/// What is inside a SET OF attributes of a bag.
pub(crate) const BAG_ATTRIBUTES: Inside = Inside::Each(&field!("" BAG_ATTRIBUTE));

/// The types of this module, in the order of their numbers.
pub(crate) fn types() -> [&'static Component; 6] {
    [
        attribute(),
        message_attribute(),
        bag_attribute(),
        signing_certificate(),
        signing_certificate_v2(),
        capabilities(),
    ]
}
