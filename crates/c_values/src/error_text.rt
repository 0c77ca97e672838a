//! Texts of errors, without the values that an error has.
ghost use Rattle.std.specs.Prelude.{◌≡◌};
ghost use Rattle.c_values.specs.FaultTexts.{is_pem};

use crate::errors::{FIRST_CONSTRAINT, FIRST_CONTENT, FIRST_FORM, FIRST_RULE};
use crate::fault::{
    CERTIFICATE, DmFault, FIRST_EC_FIELD, FIRST_ENCRYPTED_FIELD, FIRST_KEY_FIELD, FIRST_LIST_FIELD,
    FIRST_PUBLIC_FIELD, FIRST_REQUEST_FIELD, FIRST_RSA_FIELD, FIRST_RSA_PUBLIC_FIELD,
};
use arrayvec::ArrayString;
use der_base::error::{BerError, DerConstraint};
use der_base::header::Class;
use der_base::rules::Rules;
use der_contents::ContentError;
use der_elements::{Cause, TypeName};
use std::fmt;
use std::fmt::Write;
use x509::Field;
use x509::crl::Field as ListField;
use x509_keys::request::Field as RequestField;

/// The most octets of a text.
pub const LONGEST: usize = 160;

/// The number of the error if an element runs past the end of its list.
const PAST_END: u32 = 17;

/// The number of the error if octets are left over or missing.
const PARSER_FAULT: u32 = 18;

/// The number of the error of an unexpected tag.
const UNEXPECTED_TAG: u32 = 7;

/// The number of the error of an unexpected class.
const UNEXPECTED_CLASS: u32 = 8;

/// What a text of PEM begins with (RFC 7468 2).
const PEM_MARK: &[u8] = b"-----BEGIN";

/// The text of the error if an input is PEM where DER is read (`DM_ERROR_PEM_INPUT`).
pub const PEM_INPUT: &str = "this is PEM, which dm_decode_input decodes";

/// An error by its number.
#[derive(Clone, Copy)]
struct NumberedError(u32);

/// The text of an error.
pub fn words_of_error(error: u32) -> ArrayString<LONGEST> {
    let error = NumberedError(error);
    let mut words = ArrayString::<LONGEST>::new();
    let _ = write!(words, "{error}");
    words
}

/// Returns whether a fault is of an input that is PEM.
pub fn is_pem(fault: &DmFault, input: &[u8]) -> bool
    ensures { result ≡ is_pem fault.now input.now }
{
    fault.status != 0 && input.starts_with(PEM_MARK)
}

/// The text of a fault of this input, with the tag that was found if it is unexpected.
pub fn words_with_tag(fault: &DmFault, input: &[u8]) -> ArrayString<LONGEST> {
    let mut words = words_of(fault);
    if let Some(name) = found_tag(fault, input) {
        let _ = write!(words, ", found {name}");
    }
    words
}

/// The name of a universal type, or any other tag in the notation of ASN.1.
pub fn words_of_tag(class: Class, number: u32) -> ArrayString<LONGEST> {
    let name = TypeName { class, number };
    let mut words = ArrayString::<LONGEST>::new();
    let _ = write!(words, "{name}");
    words
}

/// The tag of the element of a fault, if it is unexpected.
fn found_tag(fault: &DmFault, input: &[u8]) -> Option<TypeName> {
    if fault.error != UNEXPECTED_TAG && fault.error != UNEXPECTED_CLASS {
        return None;
    }
    let octets = input.get(fault.offset..)?;
    match Rules::Ber.read_header(octets) {
        Ok((_, header)) => Some(TypeName {
            class: header.class(),
            number: header.tag().0,
        }),
        Err(_) => None,
    }
}

/// The text of a fault.
pub fn words_of(fault: &DmFault) -> ArrayString<LONGEST> {
    let mut words = ArrayString::<LONGEST>::new();
    let _ = write!(words, "{fault}");
    words
}

/// "tbsCertificate.version at 9: wrong value". A rule of certificates has no offset.
impl fmt::Display for DmFault {
    fn fmt<W: fmt::Write>(&self, f: &mut fmt::Formatter<W>) -> fmt::Result {
        if self.status == 0 || self.error >= FIRST_RULE {
            return write!(f, "{}", NumberedError(self.error));
        }
        write_field(f, self.field)?;
        write!(f, "at {}: ", self.offset)?;
        write_reason(f, self)
    }
}

/// Writes the reason.
fn write_reason<W: fmt::Write>(f: &mut fmt::Formatter<W>, fault: &DmFault) -> fmt::Result {
    match fault.error {
        0 => f.write_str("the input is cut short")?,
        PAST_END if fault.is_in_list == 1 && fault.offset == fault.list_end => {
            return f.write_str("an element is missing at the end of its list");
        }
        PAST_END => f.write_str("an element runs past the end of its list")?,
        PARSER_FAULT => f.write_str("octets left over or missing")?,
        error => write!(f, "{}", NumberedError(error))?,
    }
    if fault.needed == 0 {
        return Ok(());
    }
    write!(f, ", needs {}", fault.needed)
}

/// Writes the name of the field with this number, if there is one.
fn write_field<W: fmt::Write>(f: &mut fmt::Formatter<W>, number: u32) -> fmt::Result {
    if let Some(field) = item(&FIELDS, CERTIFICATE, number) {
        return write!(f, "{field} ");
    }
    if let Some(field) = item(&LIST_FIELDS, FIRST_LIST_FIELD, number) {
        return write!(f, "{field} ");
    }
    if let Some(field) = item(&REQUEST_FIELDS, FIRST_REQUEST_FIELD, number) {
        return write!(f, "{field} ");
    }
    match key_field(number) {
        Some(field) => write!(f, "{field} "),
        None => Ok(()),
    }
}

/// The name of the key field with this number.
fn key_field(number: u32) -> Option<&'static str> {
    match item(&KEY_FIELDS, FIRST_KEY_FIELD, number) {
        Some(field) => Some(field),
        None => match item(&RSA_FIELDS, FIRST_RSA_FIELD, number) {
            Some(field) => Some(field),
            None => other_key_field(number),
        },
    }
}

fn other_key_field(number: u32) -> Option<&'static str> {
    match item(&EC_FIELDS, FIRST_EC_FIELD, number) {
        Some(field) => Some(field),
        None => match item(&ENCRYPTED_FIELDS, FIRST_ENCRYPTED_FIELD, number) {
            Some(field) => Some(field),
            None => public_key_field(number),
        },
    }
}

fn public_key_field(number: u32) -> Option<&'static str> {
    match item(&PUBLIC_FIELDS, FIRST_PUBLIC_FIELD, number) {
        Some(field) => Some(field),
        None => item(&RSA_PUBLIC_FIELDS, FIRST_RSA_PUBLIC_FIELD, number),
    }
}

impl fmt::Display for NumberedError {
    fn fmt<W: fmt::Write>(&self, f: &mut fmt::Formatter<W>) -> fmt::Result {
        let number = self.0;
        if let Some(e) = error_with(number) {
            return write!(f, "{e}");
        }
        if let Some(cause) = cause_with(number) {
            return write!(f, "{cause}");
        }
        if let Some(text) = item(&RULES, FIRST_RULE, number) {
            return f.write_str(text);
        }
        if let Some(text) = item(&FORMS, FIRST_FORM, number) {
            return f.write_str(text);
        }
        f.write_str(text_without_values(number))
    }
}

/// The error with this number, if it has no values.
fn error_with(number: u32) -> Option<BerError> {
    Some(match number {
        1 => BerError::BerTypeError,
        2 => BerError::BerValueError,
        3 => BerError::BerMaxDepth,
        4 => BerError::InvalidLength,
        5 => BerError::InvalidTag,
        9 => BerError::ConstructExpected,
        10 => BerError::ConstructUnexpected,
        11 => BerError::IntegerTooLarge,
        12 => BerError::IntegerNegative,
        14 => BerError::StringInvalidCharset,
        15 => BerError::InvalidDateTime,
        16 => BerError::Unsupported,
        _ => BerError::DerConstraintFailed(item(&CONSTRAINTS, FIRST_CONSTRAINT, number)?),
    })
}

/// The cause with this number, if it isn't a reader's error.
fn cause_with(number: u32) -> Option<Cause> {
    Some(match number {
        48 => Cause::NoEndMarker,
        49 => Cause::EndMarker,
        50 => Cause::OtherPart,
        51 => Cause::UnusedBitsInside,
        52 => Cause::NotDer,
        _ => Cause::Value(item(&CONTENT_ERRORS, FIRST_CONTENT, number)?),
    })
}

/// The item with this number, in a list that is numbered from `first` on.
fn item<T: Copy>(items: &[T], first: u32, number: u32) -> Option<T> {
    let index = number.checked_sub(first)?;
    items.get(index as usize).copied()
}

/// The text of an error that has values.
fn text_without_values(number: u32) -> &'static str {
    match number {
        0 => "no error",
        6 => "unknown tag",
        7 => "unexpected tag",
        8 => "unexpected class",
        13 => "invalid value",
        17 => "item runs past the end of its container",
        18 => "parser fault",
        _ => "unknown error",
    }
}

/// The rules of DER beyond BER, in the order of their numbers.
const CONSTRAINTS: [DerConstraint; 12] = [
    DerConstraint::IndefiniteLength,
    DerConstraint::LengthNotMinimal,
    DerConstraint::Constructed,
    DerConstraint::InvalidBoolean,
    DerConstraint::IntegerEmpty,
    DerConstraint::IntegerLeadingZeroes,
    DerConstraint::IntegerLeadingFF,
    DerConstraint::MissingTimeZone,
    DerConstraint::MissingSeconds,
    DerConstraint::FractionNotMinimal,
    DerConstraint::UnusedBitsNotZero,
    DerConstraint::SetOfOrder,
];

/// The rules of content octets, in the order of their numbers.
const CONTENT_ERRORS: [ContentError; 36] = [
    ContentError::BooleanLength,
    ContentError::BooleanValue,
    ContentError::NumberEmpty,
    ContentError::NumberPadded,
    ContentError::UnusedBitsMissing,
    ContentError::UnusedBitsAboveSeven,
    ContentError::UnusedBitsOfNone,
    ContentError::UnusedBitsNotZero,
    ContentError::NullNotEmpty,
    ContentError::IdentifierEmpty,
    ContentError::ArcOpen,
    ContentError::ArcPadded,
    ContentError::RealBaseReserved,
    ContentError::RealExponentMissing,
    ContentError::RealMantissaMissing,
    ContentError::RealExponentPadded,
    ContentError::RealBaseOrScale,
    ContentError::RealExponentNotFewest,
    ContentError::RealMantissaNotFewest,
    ContentError::RealSpecial,
    ContentError::RealDecimal,
    ContentError::RealDecimalNotStrict,
    ContentError::NotUtf8,
    ContentError::CharacterOutside,
    ContentError::UniversalStringLength,
    ContentError::BmpStringLength,
    ContentError::TimeText,
    ContentError::TimeNotInZ,
    ContentError::TimeWithoutSeconds,
    ContentError::TimeComma,
    ContentError::TimeLastZero,
    ContentError::SequencePrimitive,
    ContentError::SetPrimitive,
    ContentError::EmbeddedPdvPrimitive,
    ContentError::ExternalPrimitive,
    ContentError::CharacterStringPrimitive,
];

/// The texts of broken rules of certificates, in the order of their numbers.
const RULES: [&str; 12] = [
    "the signature algorithms differ",
    "the serial number is not positive",
    "the serial number has more than 20 octets",
    "the issuer has no name",
    "attributes of a relative name are out of order",
    "a time before 2050 is a GeneralizedTime",
    "a time has a fraction of a second",
    "a unique identifier in version 1",
    "extensions before version 3",
    "an extension is repeated, or there are more than 512",
    "the subject has no name",
    "a value of any type is not DER",
];

/// The texts of PEM errors, in the order of their numbers.
const FORMS: [&str; 7] = [
    "no line -----BEGIN ..-----",
    "a block without its line -----END ..-----",
    "a block whose first and last line have other labels",
    "the block is encrypted",
    "invalid base64",
    "a buffer is too small for the block",
    PEM_INPUT,
];

/// The fields of a certificate, in the order of their numbers.
const FIELDS: [Field; 14] = [
    Field::Certificate,
    Field::TbsCertificate,
    Field::Version,
    Field::SerialNumber,
    Field::Signature,
    Field::Issuer,
    Field::Validity,
    Field::Subject,
    Field::SubjectPublicKeyInfo,
    Field::IssuerUniqueId,
    Field::SubjectUniqueId,
    Field::Extensions,
    Field::SignatureAlgorithm,
    Field::SignatureValue,
];

/// The fields of a CRL, in the order of their numbers.
const LIST_FIELDS: [ListField; 11] = [
    ListField::CertificateList,
    ListField::TbsCertList,
    ListField::Version,
    ListField::Signature,
    ListField::Issuer,
    ListField::ThisUpdate,
    ListField::NextUpdate,
    ListField::RevokedCertificates,
    ListField::CrlExtensions,
    ListField::SignatureAlgorithm,
    ListField::SignatureValue,
];

/// The fields of a CSR, in the order of their numbers.
const REQUEST_FIELDS: [RequestField; 8] = [
    RequestField::CertificationRequest,
    RequestField::CertificationRequestInfo,
    RequestField::Version,
    RequestField::Subject,
    RequestField::SubjectPublicKeyInfo,
    RequestField::Attributes,
    RequestField::SignatureAlgorithm,
    RequestField::Signature,
];

/// The fields of a private key, in the order of their numbers.
const KEY_FIELDS: [&str; 6] = [
    "PrivateKeyInfo",
    "version",
    "privateKeyAlgorithm",
    "privateKey",
    "attributes",
    "publicKey",
];

/// The fields of an RSA private key, in the order of their numbers.
const RSA_FIELDS: [&str; 11] = [
    "RSAPrivateKey",
    "version",
    "modulus",
    "publicExponent",
    "privateExponent",
    "prime1",
    "prime2",
    "exponent1",
    "exponent2",
    "coefficient",
    "otherPrimeInfos",
];

/// The fields of an elliptic private key, in the order of their numbers.
const EC_FIELDS: [&str; 5] = [
    "ECPrivateKey",
    "version",
    "privateKey",
    "parameters",
    "publicKey",
];

/// The fields of an encrypted private key, in the order of their numbers.
const ENCRYPTED_FIELDS: [&str; 3] = [
    "EncryptedPrivateKeyInfo",
    "encryptionAlgorithm",
    "encryptedData",
];

/// The fields of a public key, in the order of their numbers.
const PUBLIC_FIELDS: [&str; 3] = ["SubjectPublicKeyInfo", "algorithm", "subjectPublicKey"];

/// The fields of an RSA public key, in the order of their numbers.
const RSA_PUBLIC_FIELDS: [&str; 3] = ["RSAPublicKey", "modulus", "publicExponent"];
