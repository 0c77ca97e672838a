//! PKCS #12 files, with keys and certificates (RFC 7292).
use crate::attributes::BAG_ATTRIBUTES;
use crate::numbered::{
    AUTHENTICATED_SAFE, CERTIFICATE, CERTIFICATE_LIST, DIGEST_ALGORITHM, ENCRYPTED_DATA,
    ENCRYPTED_PRIVATE_KEY_INFO, ENVELOPED_DATA, PRIVATE_KEY_INFO, SAFE_CONTENTS, SIGNED_DATA,
};
use crate::universal::{IA5_STRING, INTEGER, OBJECT_IDENTIFIER, OCTET_STRING};
use der_schema::schema::{Component, Inside, Selection, Type};
use der_schema::{explicit, field, optional, selection, sequence, sequence_of, string, tagged};

/// A certificate or CRL in an OCTET STRING.
const HELD_CERTIFICATE: Type = string!(4 Inside::Holds(&[field!("" CERTIFICATE)]));

const HELD_LIST: Type = string!(4 Inside::Holds(&[field!("" CERTIFICATE_LIST)]));

/// The value of a CertBag, by its type (RFC 7292 4.2.3).
const CERTIFICATES: &[Selection] = &[
    // x509Certificate, sdsiCertificate
    selection!(b"\x2a\x86\x48\x86\xf7\x0d\x01\x09\x16\x01" field!("x509Certificate" HELD_CERTIFICATE)),
    selection!(b"\x2a\x86\x48\x86\xf7\x0d\x01\x09\x16\x02" field!("sdsiCertificate" IA5_STRING)),
];

/// The value of a CRLBag, by its type (RFC 7292 4.2.4).
const LISTS: &[Selection] = &[
    // x509CRL
    selection!(b"\x2a\x86\x48\x86\xf7\x0d\x01\x09\x17\x01" field!("x509CRL" HELD_LIST)),
];

/// The values of bags, by their type (RFC 7292 4.2, D).
const BAGS: &[Selection] = &[
    selection!(b"\x2a\x86\x48\x86\xf7\x0d\x01\x0c\x0a\x01\x01" field!("keyBag" PRIVATE_KEY_INFO)),
    selection!(b"\x2a\x86\x48\x86\xf7\x0d\x01\x0c\x0a\x01\x02" field!("pkcs8ShroudedKeyBag"
        ENCRYPTED_PRIVATE_KEY_INFO)),
    selection!(b"\x2a\x86\x48\x86\xf7\x0d\x01\x0c\x0a\x01\x03" field!("certBag" sequence![
        field!("certId" tagged!(Universal 6 Primitive Inside::Selects(CERTIFICATES))),
        field!("certValue" explicit!(0 field!("" Type::Selected))),
    ])),
    selection!(b"\x2a\x86\x48\x86\xf7\x0d\x01\x0c\x0a\x01\x04" field!("crlBag" sequence![
        field!("crlId" tagged!(Universal 6 Primitive Inside::Selects(LISTS))),
        field!("crlValue" explicit!(0 field!("" Type::Selected))),
    ])),
    selection!(b"\x2a\x86\x48\x86\xf7\x0d\x01\x0c\x0a\x01\x05" field!("secretBag" sequence![
        field!("secretTypeId" OBJECT_IDENTIFIER),
        field!("secretValue" explicit!(0 field!("" Type::Any)) => Secret),
    ])),
    selection!(b"\x2a\x86\x48\x86\xf7\x0d\x01\x0c\x0a\x01\x06" field!("safeContentsBag" SAFE_CONTENTS)),
];

/// SafeContents (RFC 7292 4.2).
static SAFE_CONTENTS_TYPE: Component =
    field!("safeContents" sequence_of!(field!("safeBag" sequence![
    field!("bagId" tagged!(Universal 6 Primitive Inside::Selects(BAGS))),
    field!("bagValue" explicit!(0 field!("" Type::Selected))),
    optional!("bagAttributes" tagged!(Universal 17 Constructed BAG_ATTRIBUTES)),
])));

fn safe_contents() -> &'static Component {
    &SAFE_CONTENTS_TYPE
}

/// The content of a ContentInfo in an AuthenticatedSafe, by its type (RFC 7292 4.1).
const SAFES: &[Selection] = &[
    // id-data, id-envelopedData, id-encryptedData
    selection!(b"\x2a\x86\x48\x86\xf7\x0d\x01\x07\x01" field!("data" string!(4 Inside::Holds(&[
        field!("" SAFE_CONTENTS),
    ])) => SecretUnread)),
    selection!(b"\x2a\x86\x48\x86\xf7\x0d\x01\x07\x03" field!("envelopedData" ENVELOPED_DATA)),
    selection!(b"\x2a\x86\x48\x86\xf7\x0d\x01\x07\x06" field!("encryptedData" ENCRYPTED_DATA)),
];

/// An AuthenticatedSafe (RFC 7292 4.1).
static AUTHENTICATED_SAFE_TYPE: Component = field!("" sequence_of!(field!("contentInfo" sequence![
    field!("contentType" tagged!(Universal 6 Primitive Inside::Selects(SAFES))),
    optional!("content" explicit!(0 field!("" Type::Selected))),
])));

fn authenticated_safe() -> &'static Component {
    &AUTHENTICATED_SAFE_TYPE
}

/// The content of the authSafe of a PFX, by its type (RFC 7292 4). Signed content may contain private keys, and no type
/// here says where, so all of it is secret.
pub(crate) const STORES: &[Selection] = &[
    // id-signedData, id-data
    selection!(b"\x2a\x86\x48\x86\xf7\x0d\x01\x07\x02" field!("signedData" SIGNED_DATA => Secret)),
    selection!(b"\x2a\x86\x48\x86\xf7\x0d\x01\x07\x01" field!("data" string!(4 Inside::Holds(&[
        field!("authenticatedSafe" AUTHENTICATED_SAFE),
    ])) => SecretUnread)),
];

/// A PFX: keys and certificates (RFC 7292 4).
static PFX_TYPE: Component = field!("pfx" sequence![
    field!("version" INTEGER),
    field!("authSafe" sequence![
            field!("contentType" tagged!(Universal 6 Primitive Inside::Selects(STORES))),
            optional!("content" explicit!(0 field!("" Type::Selected))),
        ]),
    optional!("macData" sequence![
            field!("mac" sequence![
                field!("digestAlgorithm" DIGEST_ALGORITHM),
                field!("digest" OCTET_STRING),
            ]),
            field!("macSalt" OCTET_STRING),
            optional!("iterations" INTEGER),
        ]),
]);

fn pfx() -> &'static Component {
    &PFX_TYPE
}

/// The types of this module, in the order of their numbers.
pub(crate) fn types() -> [&'static Component; 3] {
    [pfx(), authenticated_safe(), safe_contents()]
}
