//! Keys (RFC 5958, RFC 8017, RFC 5915, RFC 5280 4.1.2.7).
ghost use Rattle.std.specs.Prelude.{◌≡◌, codes};
ghost use Rattle.der_known.specs.Tables.{HasKeys};
ghost use Rattle.der_schema.specs.Meaning.{all_types};

use crate::algorithms::ALGORITHM_COMPONENTS;
use crate::attributes::ATTRIBUTES;
use crate::numbered::{ALGORITHM, CURVE, EC_PRIVATE_KEY, RSA_PRIVATE_KEY, RSA_PUBLIC_KEY};
use crate::universal::{BIT_STRING, INTEGER, OCTET_STRING};
use der_schema::schema::{Component, Inside, Selection, Type};
use der_schema::{
    explicit, field, implicit, optional, selection, sequence, sequence_of, string, tagged,
};

/// An RSAPublicKey (RFC 8017 A.1.1).
static RSA_PUBLIC_KEY_TYPE: Component = field!("rsaPublicKey" sequence![
    field!("modulus" INTEGER),
    field!("publicExponent" INTEGER)
]);

fn rsa_public_key() -> &'static Component {
    &RSA_PUBLIC_KEY_TYPE
}

/// The subjectPublicKey, by its algorithm (RFC 3279 2.3). The point of an elliptic curve isn't DER.
const PUBLIC_KEYS: &[Selection] = &[
    // rsaEncryption, id-RSASSA-PSS, id-RSAES-OAEP
    selection!(b"\x2a\x86\x48\x86\xf7\x0d\x01\x01\x01" field!("rsaPublicKey" RSA_PUBLIC_KEY)),
    selection!(b"\x2a\x86\x48\x86\xf7\x0d\x01\x01\x0a" field!("rsaPublicKey" RSA_PUBLIC_KEY)),
    selection!(b"\x2a\x86\x48\x86\xf7\x0d\x01\x01\x07" field!("rsaPublicKey" RSA_PUBLIC_KEY)),
    // id-dsa
    selection!(b"\x2a\x86\x48\xce\x38\x04\x01" field!("dsaPublicKey" INTEGER)),
    // dhpublicnumber
    selection!(b"\x2a\x86\x48\xce\x3e\x02\x01" field!("dhPublicKey" INTEGER)),
];

/// A SubjectPublicKeyInfo (RFC 5280 4.1.2.7).
static SUBJECT_PUBLIC_KEY_INFO_TYPE: Component = field!("subjectPublicKeyInfo" sequence![
    field!("algorithm" tagged!(Universal 16 Constructed Inside::Begins(ALGORITHM_COMPONENTS, PUBLIC_KEYS))),
    field!("subjectPublicKey" string!(3 Inside::Chosen)),
]);

fn subject_public_key_info() -> &'static Component {
    &SUBJECT_PUBLIC_KEY_INFO_TYPE
}

/// An RSAPrivateKey (RFC 8017 A.1.2).
static RSA_PRIVATE_KEY_TYPE: Component = field!("rsaPrivateKey" sequence![
    field!("version" INTEGER),
    field!("modulus" INTEGER),
    field!("publicExponent" INTEGER),
    field!("privateExponent" INTEGER => Secret),
    field!("prime1" INTEGER => Secret),
    field!("prime2" INTEGER => Secret),
    field!("exponent1" INTEGER => Secret),
    field!("exponent2" INTEGER => Secret),
    field!("coefficient" INTEGER => Secret),
    optional!("otherPrimeInfos" sequence_of!(field!("otherPrimeInfo" sequence![
        field!("prime" INTEGER),
        field!("exponent" INTEGER),
        field!("coefficient" INTEGER),
    ])) => Secret),
]);

fn rsa_private_key() -> &'static Component
    ensures { result.now.name.now ≡ codes "rsaPrivateKey" }
{
    &RSA_PRIVATE_KEY_TYPE
}

/// An ECPrivateKey (RFC 5915 3).
static EC_PRIVATE_KEY_TYPE: Component = field!("ecPrivateKey" sequence![
    field!("version" INTEGER),
    field!("privateKey" OCTET_STRING => Secret),
    optional!("parameters" explicit!(0 field!("" CURVE))),
    optional!("publicKey" explicit!(1 field!("" BIT_STRING))),
]);

fn ec_private_key() -> &'static Component
    ensures { result.now.name.now ≡ codes "ecPrivateKey" }
{
    &EC_PRIVATE_KEY_TYPE
}

/// The privateKey of a PrivateKeyInfo, by its algorithm (RFC 5958 2, RFC 5915 3, RFC 8410 7).
const PRIVATE_KEYS: &[Selection] = &[
    // rsaEncryption, id-RSASSA-PSS
    selection!(b"\x2a\x86\x48\x86\xf7\x0d\x01\x01\x01" field!("rsaPrivateKey" RSA_PRIVATE_KEY)),
    selection!(b"\x2a\x86\x48\x86\xf7\x0d\x01\x01\x0a" field!("rsaPrivateKey" RSA_PRIVATE_KEY)),
    // id-ecPublicKey
    selection!(b"\x2a\x86\x48\xce\x3d\x02\x01" field!("ecPrivateKey" EC_PRIVATE_KEY)),
    // id-dsa
    selection!(b"\x2a\x86\x48\xce\x38\x04\x01" field!("dsaPrivateKey" INTEGER => Secret)),
    // id-X25519, id-X448, id-Ed25519, id-Ed448
    selection!(b"\x2b\x65\x6e" field!("curvePrivateKey" OCTET_STRING => Secret)),
    selection!(b"\x2b\x65\x6f" field!("curvePrivateKey" OCTET_STRING => Secret)),
    selection!(b"\x2b\x65\x70" field!("curvePrivateKey" OCTET_STRING => Secret)),
    selection!(b"\x2b\x65\x71" field!("curvePrivateKey" OCTET_STRING => Secret)),
];

/// The AlgorithmIdentifier of a PrivateKeyInfo, which selects the type of its key.
pub(crate) const PRIVATE_KEY_ALGORITHM: Type =
    tagged!(Universal 16 Constructed Inside::Begins(ALGORITHM_COMPONENTS, PRIVATE_KEYS));

/// A OneAsymmetricKey, or a PrivateKeyInfo (RFC 5958 2).
static PRIVATE_KEY_INFO_TYPE: Component = field!("privateKeyInfo" sequence![
    field!("version" INTEGER),
    field!("privateKeyAlgorithm" PRIVATE_KEY_ALGORITHM),
    field!("privateKey" string!(4 Inside::Chosen) => Secret),
    optional!("attributes" implicit!(0 ATTRIBUTES)),
    optional!("publicKey" implicit!(1 string)),
]);

fn private_key_info() -> &'static Component
    ensures { result.now.name.now ≡ codes "privateKeyInfo" }
{
    &PRIVATE_KEY_INFO_TYPE
}

/// An EncryptedPrivateKeyInfo (RFC 5958 3).
static ENCRYPTED_PRIVATE_KEY_INFO_TYPE: Component = field!("encryptedPrivateKeyInfo" sequence![
    field!("encryptionAlgorithm" ALGORITHM),
    field!("encryptedData" OCTET_STRING),
]);

fn encrypted_private_key_info() -> &'static Component {
    &ENCRYPTED_PRIVATE_KEY_INFO_TYPE
}

/// The types of this module, in the order of their numbers.
pub(crate) fn types() -> [&'static Component; 6]
    ensures { HasKeys 2 (all_types result) }
{
    [
        subject_public_key_info(),
        rsa_public_key(),
        rsa_private_key(),
        ec_private_key(),
        private_key_info(),
        encrypted_private_key_info(),
    ]
}
