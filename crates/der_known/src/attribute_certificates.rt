//! Attribute certificates (RFC 5755 4).
use crate::algorithms::SIGNATURE;
use crate::extensions::EXTENSIONS;
use crate::names::GENERAL_NAMES;
use crate::numbered::{
    ALGORITHM, ATTRIBUTE_CERTIFICATE_INFO, CONTENT_INFO, DIGEST_ALGORITHM, GENERAL_NAME,
    IETF_ATTRIBUTE, SERVICE_AUTHENTICATION, SIGNATURE_ALGORITHM,
};
use crate::universal::{
    BIT_STRING, ENUMERATED, GENERALIZED_TIME, INTEGER, OBJECT_IDENTIFIER, OCTET_STRING, UTF8_STRING,
};
use der_schema::schema::{Component, Inside, Selection, Type};
use der_schema::{
    explicit, field, implicit, optional, selection, sequence, sequence_of, set_of, tagged,
};

/// What is inside an IssuerSerial (RFC 5755 4.1).
const ISSUER_SERIAL: Inside = Inside::Components(&[
    field!("issuer" tagged!(Universal 16 Constructed GENERAL_NAMES)),
    field!("serial" INTEGER),
    optional!("issuerUID" BIT_STRING),
]);

/// What is inside an ObjectDigestInfo (RFC 5755 4.1).
const OBJECT_DIGEST: Inside = Inside::Components(&[
    field!("digestedObjectType" ENUMERATED),
    optional!("otherObjectTypeID" OBJECT_IDENTIFIER),
    field!("digestAlgorithm" DIGEST_ALGORITHM),
    field!("objectDigest" BIT_STRING),
]);

/// A Holder (RFC 5755 4.2.2).
const HOLDER: Type = sequence![
    optional!("baseCertificateID" implicit!(0 ISSUER_SERIAL)),
    optional!("entityName" implicit!(1 GENERAL_NAMES)),
    optional!("objectDigestInfo" implicit!(2 OBJECT_DIGEST)),
];

/// An AttCertIssuer (RFC 5755 4.2.3).
const ISSUER: Type = Type::Choice(&[
    field!("v1Form" tagged!(Universal 16 Constructed GENERAL_NAMES)),
    field!("v2Form" implicit!(0 Inside::Components(&[
        optional!("issuerName" tagged!(Universal 16 Constructed GENERAL_NAMES)),
        optional!("baseCertificateID" implicit!(0 ISSUER_SERIAL)),
        optional!("objectDigestInfo" implicit!(1 OBJECT_DIGEST)),
    ]))),
]);

/// A SvceAuthInfo (RFC 5755 4.4.1).
static SERVICE_AUTHENTICATION_TYPE: Component = field!("" sequence![
    field!("service" GENERAL_NAME),
    field!("ident" GENERAL_NAME),
    optional!("authInfo" OCTET_STRING),
]);

fn service_authentication() -> &'static Component {
    &SERVICE_AUTHENTICATION_TYPE
}

/// An IetfAttrSyntax (RFC 5755 4.4).
static IETF_ATTRIBUTE_TYPE: Component = field!("" sequence![
    optional!("policyAuthority" implicit!(0 GENERAL_NAMES)),
    field!("values" sequence_of!(field!("" Type::Choice(&[
        field!("octets" OCTET_STRING),
        field!("oid" OBJECT_IDENTIFIER),
        field!("string" UTF8_STRING),
    ])))),
]);

fn ietf_attribute() -> &'static Component {
    &IETF_ATTRIBUTE_TYPE
}

/// The values of attributes (RFC 5755 4.4, 7.1).
const VALUES: &[Selection] = &[
    // id-aca-authenticationInfo, id-aca-accessIdentity, id-aca-chargingIdentity, id-aca-group, id-aca-encAttrs
    selection!(b"\x2b\x06\x01\x05\x05\x07\x0a\x01" field!("authenticationInfo" SERVICE_AUTHENTICATION)),
    selection!(b"\x2b\x06\x01\x05\x05\x07\x0a\x02" field!("accessIdentity" SERVICE_AUTHENTICATION)),
    selection!(b"\x2b\x06\x01\x05\x05\x07\x0a\x03" field!("chargingIdentity" IETF_ATTRIBUTE)),
    selection!(b"\x2b\x06\x01\x05\x05\x07\x0a\x04" field!("group" IETF_ATTRIBUTE)),
    selection!(b"\x2b\x06\x01\x05\x05\x07\x0a\x06" field!("encAttrs" CONTENT_INFO)),
    // id-at-role
    selection!(b"\x55\x04\x48" field!("role" sequence![
        optional!("roleAuthority" implicit!(0 GENERAL_NAMES)),
        field!("roleName" explicit!(1 field!("" GENERAL_NAME))),
    ])),
    // id-at-clearance
    selection!(b"\x55\x04\x37" field!("clearance" sequence![
        field!("policyId" OBJECT_IDENTIFIER),
        optional!("classList" BIT_STRING),
        optional!("securityCategories" set_of!(field!("securityCategory" sequence![
            field!("type" implicit!(0)),
            field!("value" explicit!(1 field!("" Type::Any))),
        ]))),
    ])),
];

const ATTRIBUTE: Type = sequence![
    field!("type" tagged!(Universal 6 Primitive Inside::Selects(VALUES))),
    field!("values" set_of!(field!("value" Type::Selected))),
];

/// An AttributeCertificateInfo (RFC 5755 4.1).
static ATTRIBUTE_CERTIFICATE_INFO_TYPE: Component = field!("" sequence![
    field!("version" INTEGER),
    field!("holder" HOLDER),
    field!("issuer" ISSUER),
    field!("signature" ALGORITHM),
    field!("serialNumber" INTEGER),
    field!("attrCertValidityPeriod" sequence![
        field!("notBeforeTime" GENERALIZED_TIME),
        field!("notAfterTime" GENERALIZED_TIME),
    ]),
    field!("attributes" sequence_of!(field!("attribute" ATTRIBUTE))),
    optional!("issuerUniqueID" BIT_STRING),
    optional!("extensions" EXTENSIONS),
]);

fn attribute_certificate_info() -> &'static Component {
    &ATTRIBUTE_CERTIFICATE_INFO_TYPE
}

/// An AttributeCertificate (RFC 5755 4.1).
static ATTRIBUTE_CERTIFICATE_TYPE: Component = field!("attributeCertificate" sequence![
    field!("acinfo" ATTRIBUTE_CERTIFICATE_INFO),
    field!("signatureAlgorithm" SIGNATURE_ALGORITHM),
    field!("signatureValue" SIGNATURE),
]);

fn attribute_certificate() -> &'static Component {
    &ATTRIBUTE_CERTIFICATE_TYPE
}

/// The types of this module, in the order of their numbers.
pub(crate) fn types() -> [&'static Component; 4] {
    [
        attribute_certificate(),
        attribute_certificate_info(),
        service_authentication(),
        ietf_attribute(),
    ]
}
