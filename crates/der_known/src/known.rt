//! The known types, and the type of an input.
ghost use Rattle.std.specs.Prelude.{◌≡◌};

use crate::numbered::{
    AP_REPLY, AP_REQUEST, AS_REPLY, AS_REQUEST, ATTRIBUTE_CERTIFICATE, CERTIFICATE,
    CERTIFICATE_LIST, CERTIFICATION_REQUEST, CONTENT_INFO, COUNT, EC_PRIVATE_KEY,
    ENCRYPTED_PRIVATE_KEY_INFO, KRB_CREDENTIALS, KRB_ERROR, KRB_PRIVATE, KRB_SAFE, LDAP_MESSAGE,
    OCSP_REQUEST, OCSP_RESPONSE, PFX, PRIVATE_KEY_INFO, RSA_PRIVATE_KEY, RSA_PUBLIC_KEY,
    SNMP_MESSAGE, SNMP_V3_MESSAGE, SUBJECT_PUBLIC_KEY_INFO, TGS_REPLY, TGS_REQUEST, TICKET_ALONE,
    TIME_STAMP_REQUEST, TIME_STAMP_RESPONSE, types,
};
use crate::signs;
use der_base::rules::Rules;
use der_schema::schema::{Component, Schema};
use der_schema::{KnownType, first_named, first_of, first_with_letters};

/// A known type: its name in the document that defines it, its index, and its signs. Signs are given only if the
/// elements alone don't tell the type.
macro_rules! known {
    ($name:literal $kind:expr) => {
        known!($name $kind, &[])
    };
    ($name:literal $kind:expr, $signs:expr) => {
        KnownType { name: $name, kind: $kind, signs: $signs }
    };
}

/// The known types. If an input may have several, the first is the most likely one.
static KNOWN: [KnownType; 30] = [
    known!("Certificate" CERTIFICATE),
    known!("CertificateList" CERTIFICATE_LIST),
    known!("CertificationRequest" CERTIFICATION_REQUEST),
    known!("PrivateKeyInfo" PRIVATE_KEY_INFO),
    known!("SubjectPublicKeyInfo" SUBJECT_PUBLIC_KEY_INFO, signs::SUBJECT_PUBLIC_KEY_INFO),
    known!("RSAPrivateKey" RSA_PRIVATE_KEY, signs::RSA_PRIVATE_KEY),
    known!("ECPrivateKey" EC_PRIVATE_KEY, signs::EC_PRIVATE_KEY),
    known!("PFX" PFX, signs::PFX),
    known!("EncryptedPrivateKeyInfo" ENCRYPTED_PRIVATE_KEY_INFO, signs::ENCRYPTED_PRIVATE_KEY_INFO),
    known!("ContentInfo" CONTENT_INFO, signs::CONTENT_INFO),
    known!("OCSPRequest" OCSP_REQUEST, signs::OCSP_REQUEST),
    known!("OCSPResponse" OCSP_RESPONSE, signs::OCSP_RESPONSE),
    known!("TimeStampReq" TIME_STAMP_REQUEST, signs::TIME_STAMP_REQUEST),
    known!("TimeStampResp" TIME_STAMP_RESPONSE, signs::TIME_STAMP_RESPONSE),
    known!("Message" SNMP_MESSAGE, signs::SNMP_MESSAGE),
    known!("SNMPv3Message" SNMP_V3_MESSAGE, signs::SNMP_V3_MESSAGE),
    known!("LDAPMessage" LDAP_MESSAGE),
    known!("AS-REQ" AS_REQUEST),
    known!("AS-REP" AS_REPLY),
    known!("TGS-REQ" TGS_REQUEST),
    known!("TGS-REP" TGS_REPLY),
    known!("Ticket" TICKET_ALONE),
    known!("AP-REQ" AP_REQUEST),
    known!("AP-REP" AP_REPLY),
    known!("KRB-SAFE" KRB_SAFE),
    known!("KRB-PRIV" KRB_PRIVATE),
    known!("KRB-CRED" KRB_CREDENTIALS),
    known!("KRB-ERROR" KRB_ERROR),
    known!("RSAPublicKey" RSA_PUBLIC_KEY, signs::RSA_PUBLIC_KEY),
    known!("AttributeCertificate" ATTRIBUTE_CERTIFICATE),
];

/// The known types, and the types that their components refer to by number.
///
/// # Examples
///
/// ```
/// let types = KnownTypes::new();
/// let Some(schema) = types.type_of(input, Rules::Der) else {
///     return None;
/// };
/// let mut namer = Namer::new(input, schema);
/// ```
#[derive(Clone, Copy)]
pub struct KnownTypes {
    known: &'static [KnownType],
    types: [&'static Component; COUNT],
}

impl KnownTypes {
    ghost use Rattle.der_schema.specs.Known.{IsFirstSchema, IsKnownType, SameLetters};
    ghost use Rattle.der_schema.specs.Meaning.{all_types};
    ghost use Rattle.der_known.specs.Tables.{AreKnown};

    /// All known types.
    pub fn new() -> KnownTypes
        ensures { AreKnown result }
    {
        KnownTypes {
            known: &KNOWN,
            types: types(),
        }
    }

    /// The known types, each with its name. If an input may have several, the first is the most likely one.
    pub fn known(&self) -> &'static [KnownType]
        ensures { result.now ≡ self.now.known.now }
    {
        self.known
    }

    /// The type with this name in the document that defines it, such as `Certificate`.
    pub fn type_named(&self, name: &str) -> Option<Schema<'_>>
        ensures { IsFirstSchema (λ k. k.name.now ≡ name.now) self.now.known.now (all_types self.now.types) result }
    {
        first_named(self.known, &self.types[..], name)
    }

    /// The type with this name, in any case of its letters.
    pub fn type_with_letters(&self, name: &str) -> Option<Schema<'_>>
        ensures { IsFirstSchema (λ k. SameLetters k.name.now name.now) self.now.known.now (all_types self.now.types) result }
    {
        first_with_letters(self.known, &self.types[..], name)
    }

    /// The first known type that the input has. The input is then valid by these rules, each element has a name, no
    /// mandatory component is missing, and the signs of the type are there.
    pub fn type_of(&self, input: &[u8], rules: Rules) -> Option<Schema<'_>>
        ensures { IsFirstSchema (IsKnownType (all_types self.now.types) rules input.now) self.now.known.now
            (all_types self.now.types) result }
    {
        first_of(self.known, &self.types[..], input, rules)
    }
}
