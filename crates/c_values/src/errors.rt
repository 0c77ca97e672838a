//! The numbers of errors.
ghost use Rattle.std.specs.Prelude.{◌≡◌};
ghost use Rattle.c_values.specs.ErrorNumbers.{cause_number, constraint_number, content_number, form_number};
ghost use Rattle.c_values.specs.ErrorNumbers.{number_of_result, refusal_number, rule_number};
ghost use Rattle.der_base.specs.Refusal.{refusal};

use der_base::error::{BerError, DerConstraint};
use der_contents::ContentError;
use der_elements::Cause;
use der_input::FormError;
use x509::Rule;

/// The number of the first rule of DER beyond BER. The others follow in the order of `DerConstraint`.
pub(crate) const FIRST_CONSTRAINT: u32 = 32;

/// The number of the first rule of content octets. The others follow in the order of `ContentError`.
pub(crate) const FIRST_CONTENT: u32 = 64;

/// The number of the first rule of certificates. The others follow in the order of `Rule`.
pub(crate) const FIRST_RULE: u32 = 128;

/// The number of the first PEM error.
pub(crate) const FIRST_FORM: u32 = 192;

/// The number of an error.
pub fn refusal_number(e: BerError) -> u32
    ensures { result ≡ refusal_number (refusal e) }
{
    match e {
        BerError::BerTypeError => 1,
        BerError::BerValueError => 2,
        BerError::BerMaxDepth => 3,
        BerError::InvalidLength => 4,
        BerError::InvalidTag => 5,
        BerError::UnknownTag(_) => 6,
        BerError::UnexpectedTag { .. } => 7,
        BerError::UnexpectedClass { .. } => 8,
        BerError::ConstructExpected => 9,
        BerError::ConstructUnexpected => 10,
        BerError::IntegerTooLarge => 11,
        BerError::IntegerNegative => 12,
        BerError::InvalidValue { .. } => 13,
        BerError::StringInvalidCharset => 14,
        BerError::InvalidDateTime => 15,
        BerError::Unsupported => 16,
        BerError::Incomplete(_) => 17,
        BerError::NomError(_) => 18,
        BerError::DerConstraintFailed(constraint) => constraint_number(constraint),
    }
}

/// The number of a broken rule of DER.
fn constraint_number(constraint: DerConstraint) -> u32
    ensures { result ≡ constraint_number constraint }
{
    FIRST_CONSTRAINT + constraint as u32
}

/// The number of a broken rule of content octets.
fn content_number(e: ContentError) -> u32
    ensures { result ≡ content_number e }
{
    FIRST_CONTENT + e as u32
}

/// The number of a broken rule of certificates.
pub(crate) fn rule_number(rule: Rule) -> u32
    ensures { result ≡ rule_number rule }
{
    FIRST_RULE + rule as u32
}

/// The number of a PEM error.
pub(crate) fn form_number(e: FormError) -> u32
    ensures { result ≡ form_number e }
{
    match e {
        FormError::NoBlock => FIRST_FORM,
        FormError::NoEnd => FIRST_FORM + 1,
        FormError::LabelsDiffer => FIRST_FORM + 2,
        FormError::Encrypted => FIRST_FORM + 3,
        FormError::Base64(_) => FIRST_FORM + 4,
        FormError::OutOfMemory => FIRST_FORM + 5,
        // No reader of PEM returns one of these.
        FormError::LooksLike(_) | FormError::Hex => 0,
    }
}

/// The number of a fault's cause. A cut input isn't an error and has 0.
pub(crate) fn cause_number(cause: Cause) -> u32
    ensures { result ≡ cause_number cause }
{
    match cause {
        Cause::Cut(_) => 0,
        Cause::PastEnd(_) => 17,
        Cause::NoEndMarker => 48,
        Cause::EndMarker => 49,
        Cause::Header(e) => refusal_number(e),
        Cause::Value(e) => content_number(e),
        Cause::Constructed => 10,
        Cause::ConstructedString => 34,
        Cause::OtherPart => 50,
        Cause::UnusedBitsInside => 51,
        Cause::NotDer => 52,
        Cause::TooDeep => 3,
    }
}

/// 0 for Ok, else the number of the error.
pub fn number_of_result(found: Result<(), BerError>) -> u32
    ensures { result ≡ number_of_result found }
{
    match found {
        Ok(()) => 0,
        Err(e) => refusal_number(e),
    }
}
