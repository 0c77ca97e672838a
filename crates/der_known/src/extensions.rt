//! Extensions (RFC 5280 4.2, 5.2, 5.3).
use crate::names::{ANY_ATTRIBUTE, GENERAL_NAMES};
use crate::numbered::{
    ACCESS_DESCRIPTIONS, AUTHORITY_KEY, BASIC_CONSTRAINTS, CERTIFICATE_POLICIES,
    DISTRIBUTION_POINTS, EXTENSION, GENERAL_NAME, ISSUING_DISTRIBUTION_POINT, NAME_CONSTRAINTS,
};
use crate::universal::{
    BIT_STRING, BOOLEAN, ENUMERATED, GENERALIZED_TIME, IA5_STRING, INTEGER, NULL,
    OBJECT_IDENTIFIER, OCTET_STRING,
};
use der_schema::schema::{Component, Inside, Selection, Type};
use der_schema::{
    explicit, field, implicit, optional, selection, sequence, sequence_of, string, tagged,
};

/// BasicConstraints (RFC 5280 4.2.1.9).
static BASIC_CONSTRAINTS_TYPE: Component = field!("" sequence![
    optional!("cA" BOOLEAN),
    optional!("pathLenConstraint" INTEGER)
]);

fn basic_constraints() -> &'static Component {
    &BASIC_CONSTRAINTS_TYPE
}

/// An AuthorityKeyIdentifier (RFC 5280 4.2.1.1).
static AUTHORITY_KEY_TYPE: Component = field!("" sequence![
    optional!("keyIdentifier" implicit!(0 string)),
    optional!("authorityCertIssuer" implicit!(1 GENERAL_NAMES)),
    optional!("authorityCertSerialNumber" implicit!(2)),
]);

fn authority_key() -> &'static Component {
    &AUTHORITY_KEY_TYPE
}

const NAMES: Type = tagged!(Universal 16 Constructed GENERAL_NAMES);

/// What is inside a DistributionPointName, which has an explicit tag.
const POINT_NAME: Type = Type::Choice(&[
    field!("fullName" implicit!(0 GENERAL_NAMES)),
    field!("nameRelativeToCRLIssuer" implicit!(1 Inside::Each(&field!("attributeTypeAndValue" sequence![
        field!("type" OBJECT_IDENTIFIER),
        field!("value" Type::Any),
    ])))),
]);

/// CRLDistributionPoints (RFC 5280 4.2.1.13).
static DISTRIBUTION_POINTS_TYPE: Component = field!("cRLDistributionPoints" sequence_of!(
    field!("distributionPoint" sequence![
    optional!("distributionPoint" explicit!(0 field!("" POINT_NAME))),
    optional!("reasons" implicit!(1 string)),
    optional!("cRLIssuer" implicit!(2 GENERAL_NAMES)),
])
));

fn distribution_points() -> &'static Component {
    &DISTRIBUTION_POINTS_TYPE
}

/// An IssuingDistributionPoint (RFC 5280 5.2.5).
static ISSUING_DISTRIBUTION_POINT_TYPE: Component = field!("" sequence![
    optional!("distributionPoint" explicit!(0 field!("" POINT_NAME))),
    optional!("onlyContainsUserCerts" implicit!(1)),
    optional!("onlyContainsCACerts" implicit!(2)),
    optional!("onlySomeReasons" implicit!(3 string)),
    optional!("indirectCRL" implicit!(4)),
    optional!("onlyContainsAttributeCerts" implicit!(5)),
]);

fn issuing_distribution_point() -> &'static Component {
    &ISSUING_DISTRIBUTION_POINT_TYPE
}

const SUBTREES: Inside = Inside::Each(&field!("generalSubtree" sequence![
    field!("base" GENERAL_NAME),
    optional!("minimum" implicit!(0)),
    optional!("maximum" implicit!(1)),
]));

/// NameConstraints (RFC 5280 4.2.1.10).
static NAME_CONSTRAINTS_TYPE: Component = field!("" sequence![
    optional!("permittedSubtrees" implicit!(0 SUBTREES)),
    optional!("excludedSubtrees" implicit!(1 SUBTREES)),
]);

fn name_constraints() -> &'static Component {
    &NAME_CONSTRAINTS_TYPE
}

const DISPLAY_TEXT: Type = Type::Choice(&[
    field!("" IA5_STRING),
    field!("" string!(26)),
    field!("" string!(30)),
    field!("" string!(12)),
]);

/// Qualifiers of policies (RFC 5280 4.2.1.4).
const QUALIFIERS: &[Selection] = &[
    // id-qt-cps
    selection!(b"\x2b\x06\x01\x05\x05\x07\x02\x01" field!("" IA5_STRING)),
    // id-qt-unotice
    selection!(b"\x2b\x06\x01\x05\x05\x07\x02\x02" field!("" sequence![
        optional!("noticeRef" sequence![
            field!("organization" DISPLAY_TEXT),
            field!("noticeNumbers" sequence_of!(field!("noticeNumber" INTEGER))),
        ]),
        optional!("explicitText" DISPLAY_TEXT),
    ])),
];

/// CertificatePolicies (RFC 5280 4.2.1.4).
static CERTIFICATE_POLICIES_TYPE: Component =
    field!("" sequence_of!(field!("policyInformation" sequence![
    field!("policyIdentifier" OBJECT_IDENTIFIER),
    optional!("policyQualifiers" sequence_of!(field!("policyQualifierInfo" sequence![
        field!("policyQualifierId" tagged!(Universal 6 Primitive Inside::Selects(QUALIFIERS))),
        field!("qualifier" Type::Selected),
    ]))),
])));

fn certificate_policies() -> &'static Component {
    &CERTIFICATE_POLICIES_TYPE
}

/// AuthorityInfoAccessSyntax, or SubjectInfoAccessSyntax (RFC 5280 4.2.2).
static ACCESS_DESCRIPTIONS_TYPE: Component =
    field!("" sequence_of!(field!("accessDescription" sequence![
    field!("accessMethod" OBJECT_IDENTIFIER),
    field!("accessLocation" GENERAL_NAME),
])));

fn access_descriptions() -> &'static Component {
    &ACCESS_DESCRIPTIONS_TYPE
}

/// What is inside an AttrSpec (RFC 5755 7.4).
const ATTRIBUTE_TYPES: Inside = Inside::Each(&field!("" OBJECT_IDENTIFIER));

/// The values of extensions.
const VALUES: &[Selection] = &[
    selection!(b"\x55\x1d\x0e" field!("subjectKeyIdentifier" OCTET_STRING)),
    selection!(b"\x55\x1d\x0f" field!("keyUsage" BIT_STRING)),
    selection!(b"\x55\x1d\x13" field!("basicConstraints" BASIC_CONSTRAINTS)),
    selection!(b"\x55\x1d\x23" field!("authorityKeyIdentifier" AUTHORITY_KEY)),
    selection!(b"\x55\x1d\x11" field!("subjectAltName" NAMES)),
    selection!(b"\x55\x1d\x25" field!("extKeyUsage" sequence_of!(field!("keyPurposeId" OBJECT_IDENTIFIER)))),
    selection!(b"\x55\x1d\x20" field!("certificatePolicies" CERTIFICATE_POLICIES)),
    selection!(b"\x55\x1d\x1f" field!("cRLDistributionPoints" DISTRIBUTION_POINTS)),
    selection!(b"\x2b\x06\x01\x05\x05\x07\x01\x01" field!("authorityInfoAccess" ACCESS_DESCRIPTIONS)),
    // signedCertificateTimestampList (RFC 6962 3.3)
    selection!(b"\x2b\x06\x01\x04\x01\xd6\x79\x02\x04\x02" field!("signedCertificateTimestampList" OCTET_STRING)),
    selection!(b"\x55\x1d\x09" field!("subjectDirectoryAttributes" sequence_of!(field!("attribute" ANY_ATTRIBUTE)))),
    selection!(b"\x55\x1d\x10" field!("privateKeyUsagePeriod" sequence![
        optional!("notBefore" implicit!(0 string)),
        optional!("notAfter" implicit!(1 string)),
    ])),
    selection!(b"\x55\x1d\x12" field!("issuerAltName" NAMES)),
    selection!(b"\x55\x1d\x14" field!("cRLNumber" INTEGER)),
    selection!(b"\x55\x1d\x15" field!("cRLReason" ENUMERATED)),
    selection!(b"\x55\x1d\x17" field!("holdInstructionCode" OBJECT_IDENTIFIER)),
    selection!(b"\x55\x1d\x18" field!("invalidityDate" GENERALIZED_TIME)),
    selection!(b"\x55\x1d\x1b" field!("deltaCRLIndicator" INTEGER)),
    selection!(b"\x55\x1d\x1c" field!("issuingDistributionPoint" ISSUING_DISTRIBUTION_POINT)),
    selection!(b"\x55\x1d\x1d" field!("certificateIssuer" NAMES)),
    selection!(b"\x55\x1d\x1e" field!("nameConstraints" NAME_CONSTRAINTS)),
    selection!(b"\x55\x1d\x21" field!("policyMappings" sequence_of!(field!("policyMapping" sequence![
        field!("issuerDomainPolicy" OBJECT_IDENTIFIER),
        field!("subjectDomainPolicy" OBJECT_IDENTIFIER),
    ])))),
    selection!(b"\x55\x1d\x24" field!("policyConstraints" sequence![
        optional!("requireExplicitPolicy" implicit!(0)),
        optional!("inhibitPolicyMapping" implicit!(1)),
    ])),
    selection!(b"\x55\x1d\x2e" field!("freshestCRL" DISTRIBUTION_POINTS)),
    selection!(b"\x55\x1d\x36" field!("inhibitAnyPolicy" INTEGER)),
    selection!(b"\x2b\x06\x01\x05\x05\x07\x01\x0b" field!("subjectInfoAccess" ACCESS_DESCRIPTIONS)),
    // id-pe-tlsfeature (RFC 7633)
    selection!(b"\x2b\x06\x01\x05\x05\x07\x01\x18" field!("tlsFeature" sequence_of!(field!("feature" INTEGER)))),
    // id-pe-ac-auditIdentity, id-ce-noRevAvail, id-pe-aaControls (RFC 5755 4.3.1, 4.3.6, 7.4)
    selection!(b"\x2b\x06\x01\x05\x05\x07\x01\x04" field!("auditIdentity" OCTET_STRING)),
    selection!(b"\x55\x1d\x38" field!("noRevAvail" NULL)),
    selection!(b"\x2b\x06\x01\x05\x05\x07\x01\x06" field!("aaControls" sequence![
        optional!("pathLenConstraint" INTEGER),
        optional!("permittedAttrs" implicit!(0 ATTRIBUTE_TYPES)),
        optional!("excludedAttrs" implicit!(1 ATTRIBUTE_TYPES)),
        optional!("permitUnSpecified" BOOLEAN),
    ])),
    // id-pkix-ocsp-nonce, id-pkix-ocsp-response, id-pkix-ocsp-nocheck (RFC 6960 4.4)
    selection!(b"\x2b\x06\x01\x05\x05\x07\x30\x01\x02" field!("nonce" OCTET_STRING)),
    selection!(b"\x2b\x06\x01\x05\x05\x07\x30\x01\x04" field!("acceptableResponses" sequence_of!(
        field!("" OBJECT_IDENTIFIER)
    ))),
    selection!(b"\x2b\x06\x01\x05\x05\x07\x30\x01\x05" field!("nocheck" NULL)),
];

/// An Extension (RFC 5280 4.1).
static EXTENSION_TYPE: Component = field!("extension" sequence![
    field!("extnID" tagged!(Universal 6 Primitive Inside::Selects(VALUES))),
    optional!("critical" BOOLEAN),
    field!("extnValue" string!(4 Inside::Chosen)),
]);

fn extension() -> &'static Component {
    &EXTENSION_TYPE
}

/// What is inside Extensions.
pub(crate) const EXTENSION_LIST: Inside = Inside::Each(&field!("" EXTENSION));

/// Extensions.
pub(crate) const EXTENSIONS: Type = tagged!(Universal 16 Constructed EXTENSION_LIST);

/// The types of this module, in the order of their numbers.
pub(crate) fn types() -> [&'static Component; 8] {
    [
        extension(),
        distribution_points(),
        basic_constraints(),
        authority_key(),
        certificate_policies(),
        access_descriptions(),
        issuing_distribution_point(),
        name_constraints(),
    ]
}
