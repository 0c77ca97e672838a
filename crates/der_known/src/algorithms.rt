//! Algorithms with their parameters, and values of signatures (RFC 5280 4.1.1.2, 4.1.1.3).
use crate::numbered::{
    CURVE, DIGEST_ALGORITHM, GCM, INNER_ALGORITHM, KEY_DERIVATION, PASSWORD_BASED,
    SIGNATURE_NUMBERS,
};
use crate::universal::{BIT_STRING, INTEGER, NULL, OBJECT_IDENTIFIER, OCTET_STRING};
use der_schema::schema::{Component, Inside, Selection, Type};
use der_schema::{explicit, field, optional, selection, sequence, string, tagged};

/// An AlgorithmIdentifier whose parameters are any element, such as that of a digest.
static DIGEST_ALGORITHM_TYPE: Component = field!("" sequence![
    field!("algorithm" OBJECT_IDENTIFIER),
    optional!("parameters" Type::Any),
]);

fn digest_algorithm() -> &'static Component {
    &DIGEST_ALGORITHM_TYPE
}

/// The parameters of PBKDF2 (RFC 8018 A.2).
static KEY_DERIVATION_TYPE: Component = field!("pbkdf2-params" sequence![
    field!("salt" Type::Choice(&[
        field!("specified" OCTET_STRING),
        field!("otherSource" tagged!(Universal 16 Constructed Inside::Free)),
    ])),
    field!("iterationCount" INTEGER),
    optional!("keyLength" INTEGER),
    optional!("prf" DIGEST_ALGORITHM),
]);

fn key_derivation() -> &'static Component {
    &KEY_DERIVATION_TYPE
}

const PBKDF2: Selection =
    selection!(b"\x2a\x86\x48\x86\xf7\x0d\x01\x05\x0c" field!("" KEY_DERIVATION));

/// The parameters of algorithms that occur in the parameters of others (RFC 8018, RFC 7914, RFC 8017).
const INNER_PARAMETERS: &[Selection] = &[
    PBKDF2,
    // id-scrypt
    selection!(b"\x2b\x06\x01\x04\x01\xda\x47\x04\x0b" field!("" sequence![
        field!("salt" OCTET_STRING),
        field!("costParameter" INTEGER),
        field!("blockSize" INTEGER),
        field!("parallelizationParameter" INTEGER),
        optional!("keyLength" INTEGER),
    ])),
    // id-mgf1
    selection!(b"\x2a\x86\x48\x86\xf7\x0d\x01\x01\x08" field!("" DIGEST_ALGORITHM)),
];

/// An AlgorithmIdentifier in the parameters of another.
static INNER_ALGORITHM_TYPE: Component = field!("" sequence![
    field!("algorithm" tagged!(Universal 6 Primitive Inside::Selects(INNER_PARAMETERS))),
    optional!("parameters" Type::Selected),
]);

fn inner_algorithm() -> &'static Component {
    &INNER_ALGORITHM_TYPE
}

const RSASSA_PSS: Type = sequence![
    optional!("hashAlgorithm" explicit!(0 field!("" DIGEST_ALGORITHM))),
    optional!("maskGenAlgorithm" explicit!(1 field!("" INNER_ALGORITHM))),
    optional!("saltLength" explicit!(2 field!("" INTEGER))),
    optional!("trailerField" explicit!(3 field!("" INTEGER))),
];

const RSAES_OAEP: Type = sequence![
    optional!("hashFunc" explicit!(0 field!("" DIGEST_ALGORITHM))),
    optional!("maskGenFunc" explicit!(1 field!("" INNER_ALGORITHM))),
    optional!("pSourceFunc" explicit!(2 field!("" DIGEST_ALGORITHM))),
];

/// The parameters of PBES1 (RFC 8018 A.3).
static PASSWORD_BASED_TYPE: Component = field!("pbeParameter" sequence![
    field!("salt" OCTET_STRING),
    field!("iterationCount" INTEGER)
]);

fn password_based() -> &'static Component {
    &PASSWORD_BASED_TYPE
}

/// The parameters of PKCS #12's ciphers (RFC 7292 C).
const PKCS12_PASSWORD_BASED: Type = sequence![
    field!("salt" OCTET_STRING),
    field!("iterations" INTEGER)
];

/// GCMParameters (RFC 5084 3.2).
static GCM_TYPE: Component = field!("gcmParameters" sequence![
    field!("aes-nonce" OCTET_STRING),
    optional!("aes-ICVlen" INTEGER)
]);

fn gcm() -> &'static Component {
    &GCM_TYPE
}

/// A curve (RFC 3279 2.3.5).
static CURVE_TYPE: Component = field!("ecParameters" Type::Choice(&[
    field!("namedCurve" OBJECT_IDENTIFIER),
    field!("implicitlyCA" NULL),
    field!("ecParameters" sequence![
        field!("version" INTEGER),
        field!("fieldID" sequence![field!("fieldType" OBJECT_IDENTIFIER), field!("parameters" Type::Any)]),
        field!("curve" sequence![
            field!("a" OCTET_STRING),
            field!("b" OCTET_STRING),
            optional!("seed" BIT_STRING),
        ]),
        field!("base" OCTET_STRING),
        field!("order" INTEGER),
        optional!("cofactor" INTEGER),
        optional!("hash" DIGEST_ALGORITHM),
    ]),
]));

fn curve() -> &'static Component {
    &CURVE_TYPE
}

/// The parameters of algorithms (RFC 3279, RFC 4055, RFC 8018, RFC 5084, RFC 7292).
const PARAMETERS: &[Selection] = &[
    // id-ecPublicKey
    selection!(b"\x2a\x86\x48\xce\x3d\x02\x01" field!("" CURVE)),
    // id-RSASSA-PSS
    selection!(b"\x2a\x86\x48\x86\xf7\x0d\x01\x01\x0a" field!("" RSASSA_PSS)),
    // id-RSAES-OAEP
    selection!(b"\x2a\x86\x48\x86\xf7\x0d\x01\x01\x07" field!("" RSAES_OAEP)),
    // id-dsa
    selection!(b"\x2a\x86\x48\xce\x38\x04\x01" field!("" sequence![
        field!("p" INTEGER),
        field!("q" INTEGER),
        field!("g" INTEGER),
    ])),
    // id-PBES2
    selection!(b"\x2a\x86\x48\x86\xf7\x0d\x01\x05\x0d" field!("" sequence![
        field!("keyDerivationFunc" INNER_ALGORITHM),
        field!("encryptionScheme" INNER_ALGORITHM),
    ])),
    PBKDF2,
    // pbeWithMD5AndDES-CBC, pbeWithSHA1AndDES-CBC
    selection!(b"\x2a\x86\x48\x86\xf7\x0d\x01\x05\x03" field!("" PASSWORD_BASED)),
    selection!(b"\x2a\x86\x48\x86\xf7\x0d\x01\x05\x0a" field!("" PASSWORD_BASED)),
    // pbeWithSHAAnd3-KeyTripleDES-CBC, pbeWithSHAAnd40BitRC2-CBC
    selection!(b"\x2a\x86\x48\x86\xf7\x0d\x01\x0c\x01\x03" field!("" PKCS12_PASSWORD_BASED)),
    selection!(b"\x2a\x86\x48\x86\xf7\x0d\x01\x0c\x01\x06" field!("" PKCS12_PASSWORD_BASED)),
    // id-aes128-GCM, id-aes192-GCM, id-aes256-GCM
    selection!(b"\x60\x86\x48\x01\x65\x03\x04\x01\x06" field!("" GCM)),
    selection!(b"\x60\x86\x48\x01\x65\x03\x04\x01\x1a" field!("" GCM)),
    selection!(b"\x60\x86\x48\x01\x65\x03\x04\x01\x2e" field!("" GCM)),
];

/// The components of an AlgorithmIdentifier.
pub(crate) const ALGORITHM_COMPONENTS: &[Component] = &[
    field!("algorithm" tagged!(Universal 6 Primitive Inside::Selects(PARAMETERS))),
    optional!("parameters" Type::Selected),
];

/// An AlgorithmIdentifier.
static ALGORITHM_TYPE: Component =
    field!("" tagged!(Universal 16 Constructed Inside::Components(ALGORITHM_COMPONENTS)));

fn algorithm() -> &'static Component {
    &ALGORITHM_TYPE
}

/// The two numbers of a signature (RFC 3279 2.2.2, 2.2.3).
static SIGNATURE_NUMBERS_TYPE: Component =
    field!("ecdsaSigValue" sequence![field!("r" INTEGER), field!("s" INTEGER)]);

fn signature_numbers() -> &'static Component {
    &SIGNATURE_NUMBERS_TYPE
}

/// The values of signatures (RFC 3279 2.2, RFC 5758 3). That of an RSA signature isn't DER.
const SIGNATURES: &[Selection] = &[
    // ecdsa-with-SHA1, ecdsa-with-SHA224, ecdsa-with-SHA256, ecdsa-with-SHA384, ecdsa-with-SHA512
    selection!(b"\x2a\x86\x48\xce\x3d\x04\x01" field!("ecdsaSigValue" SIGNATURE_NUMBERS)),
    selection!(b"\x2a\x86\x48\xce\x3d\x04\x03\x01" field!("ecdsaSigValue" SIGNATURE_NUMBERS)),
    selection!(b"\x2a\x86\x48\xce\x3d\x04\x03\x02" field!("ecdsaSigValue" SIGNATURE_NUMBERS)),
    selection!(b"\x2a\x86\x48\xce\x3d\x04\x03\x03" field!("ecdsaSigValue" SIGNATURE_NUMBERS)),
    selection!(b"\x2a\x86\x48\xce\x3d\x04\x03\x04" field!("ecdsaSigValue" SIGNATURE_NUMBERS)),
    // id-dsa-with-sha1, id-dsa-with-sha224, id-dsa-with-sha256
    selection!(b"\x2a\x86\x48\xce\x38\x04\x03" field!("dssSigValue" SIGNATURE_NUMBERS)),
    selection!(b"\x60\x86\x48\x01\x65\x03\x04\x03\x01" field!("dssSigValue" SIGNATURE_NUMBERS)),
    selection!(b"\x60\x86\x48\x01\x65\x03\x04\x03\x02" field!("dssSigValue" SIGNATURE_NUMBERS)),
];

/// The AlgorithmIdentifier before a signature, which selects the type of the signature.
static SIGNATURE_ALGORITHM_TYPE: Component =
    field!("algorithmIdentifier" tagged!(Universal 16 Constructed Inside::Begins(ALGORITHM_COMPONENTS, SIGNATURES)));

fn signature_algorithm() -> &'static Component {
    &SIGNATURE_ALGORITHM_TYPE
}

/// A BIT STRING that is a signature.
pub(crate) const SIGNATURE: Type = string!(3 Inside::Chosen);

/// The types of this module, in the order of their numbers.
pub(crate) fn types() -> [&'static Component; 9] {
    [
        digest_algorithm(),
        algorithm(),
        inner_algorithm(),
        curve(),
        password_based(),
        key_derivation(),
        gcm(),
        signature_algorithm(),
        signature_numbers(),
    ]
}
