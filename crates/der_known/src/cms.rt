//! Messages of CMS (RFC 5652, RFC 5083, RFC 3274), and key packages in them (RFC 5958).
use crate::algorithms::SIGNATURE;
use crate::attributes::MESSAGE_ATTRIBUTES;
use crate::certificates::{CERTIFICATE_LIST_SEQUENCE, CERTIFICATE_SEQUENCE};
use crate::numbered::{
    ALGORITHM, ATTRIBUTE_CERTIFICATE_INFO, AUTH_ENVELOPED_DATA, AUTHENTICATED_DATA,
    CERTIFICATE_CHOICE, DIGEST_ALGORITHM, ENCAPSULATED_CONTENT, ENCRYPTED_DATA, ENVELOPED_DATA,
    NAME, PRIVATE_KEY_INFO, RECIPIENT, REVOCATION_CHOICE, SIGNATURE_ALGORITHM,
    SIGNED_AND_ENVELOPED_DATA, SIGNED_DATA, SIGNER_INFO, TIME_STAMP_INFO,
};
use crate::universal::{BIT_STRING, GENERALIZED_TIME, INTEGER, OBJECT_IDENTIFIER, OCTET_STRING};
use der_schema::schema::{Component, Inside, Selection, Type};
use der_schema::{
    explicit, field, implicit, optional, selection, sequence, sequence_of, set_of, string, tagged,
};

/// An AsymmetricKeyPackage (RFC 5958 2).
const KEY_PACKAGE: Type = sequence_of!(field!("oneAsymmetricKey" PRIVATE_KEY_INFO));

/// The content of an EncapsulatedContentInfo, by its type (RFC 3161 2.4.2, RFC 5958 2). Data is any octets.
const ENCAPSULATED: &[Selection] = &[
    // id-ct-TSTInfo
    selection!(b"\x2a\x86\x48\x86\xf7\x0d\x01\x09\x10\x01\x04" field!("tstInfo" TIME_STAMP_INFO)),
    // id-ct-KP-aKeyPackage
    selection!(b"\x60\x86\x48\x01\x65\x02\x01\x02\x4e\x05" field!("asymmetricKeyPackage" KEY_PACKAGE)),
];

/// An EncapsulatedContentInfo (RFC 5652 5.2).
static ENCAPSULATED_CONTENT_TYPE: Component = field!("encapsulatedContentInfo" sequence![
    field!("eContentType" tagged!(Universal 6 Primitive Inside::Selects(ENCAPSULATED))),
    optional!("eContent" explicit!(0 field!("" string!(4 Inside::Chosen)))),
]);

fn encapsulated_content() -> &'static Component {
    &ENCAPSULATED_CONTENT_TYPE
}

/// An OtherCertificateFormat (RFC 5652 10.2.2).
const OTHER_CERTIFICATE: Inside = Inside::Components(&[
    field!("otherCertFormat" OBJECT_IDENTIFIER),
    field!("otherCert" Type::Any),
]);

/// An OtherRevocationInfoFormat (RFC 5652 10.2.1).
const OTHER_REVOCATION: Inside = Inside::Components(&[
    field!("otherRevInfoFormat" OBJECT_IDENTIFIER),
    field!("otherRevInfo" Type::Any),
]);

/// A CertificateChoices (RFC 5652 10.2.2).
static CERTIFICATE_CHOICE_TYPE: Component = field!("certificateChoices" Type::Choice(&[
    field!("certificate" CERTIFICATE_SEQUENCE),
    field!("extendedCertificate" implicit!(0 Inside::Free)),
    field!("v1AttrCert" implicit!(1 Inside::Free)),
    field!("v2AttrCert" implicit!(2 Inside::Components(&[
        field!("acinfo" ATTRIBUTE_CERTIFICATE_INFO),
        field!("signatureAlgorithm" SIGNATURE_ALGORITHM),
        field!("signatureValue" SIGNATURE),
    ]))),
    field!("other" implicit!(3 OTHER_CERTIFICATE)),
]));

fn certificate_choice() -> &'static Component {
    &CERTIFICATE_CHOICE_TYPE
}

pub(crate) const CERTIFICATES: Inside = Inside::Each(&field!("" CERTIFICATE_CHOICE));

/// A RevocationInfoChoice (RFC 5652 10.2.1).
static REVOCATION_CHOICE_TYPE: Component = field!("revocationInfoChoice" Type::Choice(&[
    field!("crl" CERTIFICATE_LIST_SEQUENCE),
    field!("other" implicit!(1 OTHER_REVOCATION)),
]));

fn revocation_choice() -> &'static Component {
    &REVOCATION_CHOICE_TYPE
}

const REVOCATIONS: Inside = Inside::Each(&field!("" REVOCATION_CHOICE));

/// An IssuerAndSerialNumber (RFC 5652 10.2.4).
pub(crate) const ISSUER_AND_SERIAL: Type = sequence![
    field!("issuer" NAME),
    field!("serialNumber" INTEGER)
];

/// A SignerInfo (RFC 5652 5.3).
static SIGNER_INFO_TYPE: Component = field!("signerInfo" sequence![
    field!("version" INTEGER),
    field!("sid" Type::Choice(&[
        field!("issuerAndSerialNumber" ISSUER_AND_SERIAL),
        field!("subjectKeyIdentifier" implicit!(0 string)),
    ])),
    field!("digestAlgorithm" DIGEST_ALGORITHM),
    optional!("signedAttrs" implicit!(0 MESSAGE_ATTRIBUTES)),
    field!("signatureAlgorithm" ALGORITHM),
    field!("signature" OCTET_STRING),
    optional!("unsignedAttrs" implicit!(1 MESSAGE_ATTRIBUTES)),
]);

fn signer_info() -> &'static Component {
    &SIGNER_INFO_TYPE
}

/// SignedData (RFC 5652 5.1).
static SIGNED_DATA_TYPE: Component = field!("" sequence![
    field!("version" INTEGER),
    field!("digestAlgorithms" set_of!(field!("digestAlgorithm" DIGEST_ALGORITHM))),
    field!("encapContentInfo" ENCAPSULATED_CONTENT),
    optional!("certificates" implicit!(0 CERTIFICATES)),
    optional!("crls" implicit!(1 REVOCATIONS)),
    field!("signerInfos" set_of!(field!("" SIGNER_INFO))),
]);

fn signed_data() -> &'static Component {
    &SIGNED_DATA_TYPE
}

const ORIGINATOR_INFO: Inside = Inside::Components(&[
    optional!("certs" implicit!(0 CERTIFICATES)),
    optional!("crls" implicit!(1 REVOCATIONS)),
]);

/// A recipient by the identifier of its key, with the date and another attribute of the key (RFC 5652 6.2.2, 6.2.3).
const KEY_IDENTIFIER: Inside = Inside::Components(&[
    field!("subjectKeyIdentifier" OCTET_STRING),
    optional!("date" GENERALIZED_TIME),
    optional!("other" tagged!(Universal 16 Constructed Inside::Free)),
]);

const KEY_TRANSPORT: Type = sequence![
    field!("version" INTEGER),
    field!("rid" Type::Choice(&[
        field!("issuerAndSerialNumber" ISSUER_AND_SERIAL),
        field!("subjectKeyIdentifier" implicit!(0 string)),
    ])),
    field!("keyEncryptionAlgorithm" ALGORITHM),
    field!("encryptedKey" OCTET_STRING),
];

const KEY_AGREEMENT: Inside = Inside::Components(&[
    field!("version" INTEGER),
    field!("originator" explicit!(0 field!("" Type::Choice(&[
        field!("issuerAndSerialNumber" ISSUER_AND_SERIAL),
        field!("subjectKeyIdentifier" implicit!(0 string)),
        field!("originatorKey" implicit!(1 Inside::Components(&[
            field!("algorithm" ALGORITHM),
            field!("publicKey" BIT_STRING),
        ]))),
    ])))),
    optional!("ukm" explicit!(1 field!("" OCTET_STRING))),
    field!("keyEncryptionAlgorithm" ALGORITHM),
    field!("recipientEncryptedKeys" sequence_of!(field!("recipientEncryptedKey" sequence![
        field!("rid" Type::Choice(&[
            field!("issuerAndSerialNumber" ISSUER_AND_SERIAL),
            field!("rKeyId" implicit!(0 KEY_IDENTIFIER)),
        ])),
        field!("encryptedKey" OCTET_STRING),
    ]))),
]);

/// A RecipientInfo (RFC 5652 6.2).
static RECIPIENT_TYPE: Component = field!("recipientInfo" Type::Choice(&[
    field!("ktri" KEY_TRANSPORT),
    field!("kari" implicit!(1 KEY_AGREEMENT)),
    field!("kekri" implicit!(2 Inside::Components(&[
        field!("version" INTEGER),
        field!("kekid" sequence![
            field!("keyIdentifier" OCTET_STRING),
            optional!("date" GENERALIZED_TIME),
            optional!("other" tagged!(Universal 16 Constructed Inside::Free)),
        ]),
        field!("keyEncryptionAlgorithm" ALGORITHM),
        field!("encryptedKey" OCTET_STRING),
    ]))),
    field!("pwri" implicit!(3 Inside::Components(&[
        field!("version" INTEGER),
        optional!("keyDerivationAlgorithm" implicit!(0 Inside::Components(&[
            field!("algorithm" OBJECT_IDENTIFIER),
            optional!("parameters" Type::Any),
        ]))),
        field!("keyEncryptionAlgorithm" ALGORITHM),
        field!("encryptedKey" OCTET_STRING),
    ]))),
    field!("ori" implicit!(4 Inside::Components(&[
        field!("oriType" OBJECT_IDENTIFIER),
        field!("oriValue" Type::Any),
    ]))),
]));

fn recipient() -> &'static Component {
    &RECIPIENT_TYPE
}

const RECIPIENTS: Type = set_of!(field!("" RECIPIENT));

pub(crate) const ENCRYPTED_CONTENT: Type = sequence![
    field!("contentType" OBJECT_IDENTIFIER),
    field!("contentEncryptionAlgorithm" ALGORITHM),
    optional!("encryptedContent" implicit!(0 string)),
];

/// EnvelopedData (RFC 5652 6.1).
static ENVELOPED_DATA_TYPE: Component = field!("" sequence![
    field!("version" INTEGER),
    optional!("originatorInfo" implicit!(0 ORIGINATOR_INFO)),
    field!("recipientInfos" RECIPIENTS),
    field!("encryptedContentInfo" ENCRYPTED_CONTENT),
    optional!("unprotectedAttrs" implicit!(1 MESSAGE_ATTRIBUTES)),
]);

fn enveloped_data() -> &'static Component {
    &ENVELOPED_DATA_TYPE
}

/// EncryptedData (RFC 5652 8).
static ENCRYPTED_DATA_TYPE: Component = field!("" sequence![
    field!("version" INTEGER),
    field!("encryptedContentInfo" ENCRYPTED_CONTENT),
    optional!("unprotectedAttrs" implicit!(1 MESSAGE_ATTRIBUTES)),
]);

fn encrypted_data() -> &'static Component {
    &ENCRYPTED_DATA_TYPE
}

/// AuthenticatedData (RFC 5652 9.1).
static AUTHENTICATED_DATA_TYPE: Component = field!("" sequence![
    field!("version" INTEGER),
    optional!("originatorInfo" implicit!(0 ORIGINATOR_INFO)),
    field!("recipientInfos" RECIPIENTS),
    field!("macAlgorithm" ALGORITHM),
    optional!("digestAlgorithm" implicit!(1 Inside::Components(&[
        field!("algorithm" OBJECT_IDENTIFIER),
        optional!("parameters" Type::Any),
    ]))),
    field!("encapContentInfo" ENCAPSULATED_CONTENT),
    optional!("authAttrs" implicit!(2 MESSAGE_ATTRIBUTES)),
    field!("mac" OCTET_STRING),
    optional!("unauthAttrs" implicit!(3 MESSAGE_ATTRIBUTES)),
]);

fn authenticated_data() -> &'static Component {
    &AUTHENTICATED_DATA_TYPE
}

/// AuthEnvelopedData (RFC 5083 2.1).
static AUTH_ENVELOPED_DATA_TYPE: Component = field!("" sequence![
    field!("version" INTEGER),
    optional!("originatorInfo" implicit!(0 ORIGINATOR_INFO)),
    field!("recipientInfos" RECIPIENTS),
    field!("authEncryptedContentInfo" ENCRYPTED_CONTENT),
    optional!("authAttrs" implicit!(1 MESSAGE_ATTRIBUTES)),
    field!("mac" OCTET_STRING),
    optional!("unauthAttrs" implicit!(2 MESSAGE_ATTRIBUTES)),
]);

fn auth_enveloped_data() -> &'static Component {
    &AUTH_ENVELOPED_DATA_TYPE
}

/// The content of a ContentInfo, by its type (RFC 5652 4 to 9, RFC 2315 11, RFC 5083 2.1, RFC 3274 1.1, RFC 5958 2).
const CONTENTS: &[Selection] = &[
    // id-data, id-signedData, id-envelopedData, signedAndEnvelopedData, id-digestedData, id-encryptedData
    selection!(b"\x2a\x86\x48\x86\xf7\x0d\x01\x07\x01" field!("data" OCTET_STRING)),
    selection!(b"\x2a\x86\x48\x86\xf7\x0d\x01\x07\x02" field!("signedData" SIGNED_DATA)),
    selection!(b"\x2a\x86\x48\x86\xf7\x0d\x01\x07\x03" field!("envelopedData" ENVELOPED_DATA)),
    selection!(b"\x2a\x86\x48\x86\xf7\x0d\x01\x07\x04" field!("signedAndEnvelopedData"
        SIGNED_AND_ENVELOPED_DATA)),
    selection!(b"\x2a\x86\x48\x86\xf7\x0d\x01\x07\x05" field!("digestedData" sequence![
        field!("version" INTEGER),
        field!("digestAlgorithm" DIGEST_ALGORITHM),
        field!("encapContentInfo" ENCAPSULATED_CONTENT),
        field!("digest" OCTET_STRING),
    ])),
    selection!(b"\x2a\x86\x48\x86\xf7\x0d\x01\x07\x06" field!("encryptedData" ENCRYPTED_DATA)),
    // id-ct-authData, id-ct-authEnvelopedData, id-ct-compressedData
    selection!(b"\x2a\x86\x48\x86\xf7\x0d\x01\x09\x10\x01\x02" field!("authenticatedData" AUTHENTICATED_DATA)),
    selection!(b"\x2a\x86\x48\x86\xf7\x0d\x01\x09\x10\x01\x17" field!("authEnvelopedData" AUTH_ENVELOPED_DATA)),
    selection!(b"\x2a\x86\x48\x86\xf7\x0d\x01\x09\x10\x01\x09" field!("compressedData" sequence![
        field!("version" INTEGER),
        field!("compressionAlgorithm" DIGEST_ALGORITHM),
        field!("encapContentInfo" ENCAPSULATED_CONTENT),
    ])),
    // id-ct-KP-aKeyPackage
    selection!(b"\x60\x86\x48\x01\x65\x02\x01\x02\x4e\x05" field!("asymmetricKeyPackage" KEY_PACKAGE)),
];

/// A ContentInfo (RFC 5652 3).
static CONTENT_INFO_TYPE: Component = field!("contentInfo" sequence![
    field!("contentType" tagged!(Universal 6 Primitive Inside::Selects(CONTENTS))),
    optional!("content" explicit!(0 field!("" Type::Selected))),
]);

fn content_info() -> &'static Component {
    &CONTENT_INFO_TYPE
}

/// The types of this module, in the order of their numbers.
pub(crate) fn types() -> [&'static Component; 11] {
    [
        content_info(),
        signed_data(),
        enveloped_data(),
        encrypted_data(),
        authenticated_data(),
        auth_enveloped_data(),
        signer_info(),
        certificate_choice(),
        revocation_choice(),
        encapsulated_content(),
        recipient(),
    ]
}
