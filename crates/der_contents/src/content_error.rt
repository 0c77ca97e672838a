//! What is wrong with content octets.
ghost use Rattle.std.specs.Prelude.{◌≡◌, Some};
ghost use Rattle.der_contents.specs.ContentErrors.{rule_text};

use std::fmt;

/// The rule of X.690 that the content octets of a primitive element break.
#[derive(Clone, Copy, Debug, PartialEq)]
pub enum ContentError {
    /// A BOOLEAN isn't one octet (8.2.1).
    BooleanLength,
    /// By DER a BOOLEAN is neither 00 nor ff (11.1).
    BooleanValue,
    /// An INTEGER or ENUMERATED has no octets (8.3.1).
    NumberEmpty,
    /// The first nine bits of an INTEGER or ENUMERATED are alike (8.3.2).
    NumberPadded,
    /// A BIT STRING has no octets (8.6.2.1).
    UnusedBitsMissing,
    /// More than seven bits are unused (8.6.2.2).
    UnusedBitsAboveSeven,
    /// A BIT STRING without bits has unused ones (8.6.2.3).
    UnusedBitsOfNone,
    /// By DER an unused bit isn't 0 (11.2.1).
    UnusedBitsNotZero,
    /// A NULL has octets (8.8.2).
    NullNotEmpty,
    /// An OBJECT IDENTIFIER or RELATIVE-OID has no octets (8.19.2, 8.20.2).
    IdentifierEmpty,
    /// The last arc has no end (8.19.2, 8.20.2).
    ArcOpen,
    /// An arc begins with an octet of 80 (8.19.2, 8.20.2).
    ArcPadded,
    /// The base of a REAL is a reserved one (8.5.7.2).
    RealBaseReserved,
    /// A REAL has no exponent (8.5.7.4).
    RealExponentMissing,
    /// A REAL has no mantissa (8.5.7.5).
    RealMantissaMissing,
    /// The first nine bits of a counted exponent are alike (8.5.7.4).
    RealExponentPadded,
    /// By DER a REAL has a base other than 2 or a scaling factor (11.3.1).
    RealBaseOrScale,
    /// By DER an exponent isn't in its fewest octets (11.3.1).
    RealExponentNotFewest,
    /// By DER a mantissa is even or begins with 00 (11.3.1).
    RealMantissaNotFewest,
    /// A special value of a REAL isn't known or has more octets (8.5.9).
    RealSpecial,
    /// A decimal REAL isn't in its form of ISO 6093 (8.5.8).
    RealDecimal,
    /// By DER a decimal REAL has another form or needless characters (11.3.2).
    RealDecimalNotStrict,
    /// A UTF8String, OID-IRI or RELATIVE-OID-IRI isn't UTF-8 (8.21, 8.22, 8.23.10).
    NotUtf8,
    /// An octet is outside of the character set of its type (8.23).
    CharacterOutside,
    /// The octets of a UniversalString aren't groups of four (8.23.7).
    UniversalStringLength,
    /// The octets of a BMPString aren't pairs (8.23.9).
    BmpStringLength,
    /// The octets aren't a text of the time type (8.25).
    TimeText,
    /// By DER a time doesn't end in Z (11.7.1, 11.8.1).
    TimeNotInZ,
    /// By DER a time has no seconds (11.7.2, 11.8.2).
    TimeWithoutSeconds,
    /// By DER a fraction has a comma (11.7.4).
    TimeComma,
    /// By DER a fraction ends in 0 (11.7.3).
    TimeLastZero,
    /// A SEQUENCE is primitive (8.9.1).
    SequencePrimitive,
    /// A SET is primitive (8.11.1).
    SetPrimitive,
    /// An EMBEDDED PDV is primitive (8.17).
    EmbeddedPdvPrimitive,
    /// An EXTERNAL is primitive (8.18.1).
    ExternalPrimitive,
    /// A CHARACTER STRING is primitive (8.24).
    CharacterStringPrimitive,
}

impl ContentError {
    /// What was found.
    pub fn found(self) -> &'static str
        ensures { result.now ≡ (rule_text self).0 }
    {
        match self {
            ContentError::BooleanLength => "a BOOLEAN isn't one octet",
            ContentError::BooleanValue => "a BOOLEAN is neither 00 nor ff",
            ContentError::NumberEmpty => "a number has no octets",
            ContentError::NumberPadded => "the first nine bits of a number are alike",
            ContentError::UnusedBitsMissing => "a BIT STRING has no octets",
            ContentError::UnusedBitsAboveSeven => "more than seven bits are unused",
            ContentError::UnusedBitsOfNone => "a BIT STRING without bits has unused ones",
            ContentError::UnusedBitsNotZero => "an unused bit isn't 0",
            ContentError::NullNotEmpty => "a NULL has octets",
            ContentError::IdentifierEmpty => "an identifier has no octets",
            ContentError::ArcOpen => "the last arc has no end",
            ContentError::ArcPadded => "an arc begins with 80",
            ContentError::RealBaseReserved => "the base of a REAL is a reserved one",
            ContentError::RealExponentMissing => "a REAL has no exponent",
            ContentError::RealMantissaMissing => "a REAL has no mantissa",
            ContentError::RealExponentPadded => "the first nine bits of an exponent are alike",
            ContentError::RealBaseOrScale => "a REAL has a base other than 2 or a scaling factor",
            ContentError::RealExponentNotFewest => "an exponent isn't in its fewest octets",
            ContentError::RealMantissaNotFewest => "a mantissa is even or begins with 00",
            ContentError::RealSpecial => "a special value of a REAL isn't known",
            ContentError::RealDecimal => "a decimal REAL isn't in its form of ISO 6093",
            ContentError::RealDecimalNotStrict => "a decimal REAL has needless characters",
            ContentError::NotUtf8 => "a text isn't UTF-8",
            ContentError::CharacterOutside => "an octet is outside of the character set",
            ContentError::UniversalStringLength => "a UniversalString isn't groups of four octets",
            ContentError::BmpStringLength => "a BMPString isn't pairs of octets",
            ContentError::TimeText => "a time isn't a text of its type",
            ContentError::TimeNotInZ => "a time doesn't end in Z",
            ContentError::TimeWithoutSeconds => "a time has no seconds",
            ContentError::TimeComma => "a fraction has a comma",
            ContentError::TimeLastZero => "a fraction ends in 0",
            ContentError::SequencePrimitive => "a SEQUENCE is primitive",
            ContentError::SetPrimitive => "a SET is primitive",
            ContentError::EmbeddedPdvPrimitive => "an EMBEDDED PDV is primitive",
            ContentError::ExternalPrimitive => "an EXTERNAL is primitive",
            ContentError::CharacterStringPrimitive => "a CHARACTER STRING is primitive",
        }
    }

    /// The clause of X.690.
    pub fn clause(self) -> &'static str
        ensures { result.now ≡ (rule_text self).1 }
    {
        match self {
            ContentError::BooleanLength => "8.2.1",
            ContentError::BooleanValue => "11.1",
            ContentError::NumberEmpty => "8.3.1",
            ContentError::NumberPadded => "8.3.2",
            ContentError::UnusedBitsMissing => "8.6.2.1",
            ContentError::UnusedBitsAboveSeven => "8.6.2.2",
            ContentError::UnusedBitsOfNone => "8.6.2.3",
            ContentError::UnusedBitsNotZero => "11.2.1",
            ContentError::NullNotEmpty => "8.8.2",
            ContentError::IdentifierEmpty => "8.19.2, 8.20.2",
            ContentError::ArcOpen => "8.19.2, 8.20.2",
            ContentError::ArcPadded => "8.19.2, 8.20.2",
            ContentError::RealBaseReserved => "8.5.7.2",
            ContentError::RealExponentMissing => "8.5.7.4",
            ContentError::RealMantissaMissing => "8.5.7.5",
            ContentError::RealExponentPadded => "8.5.7.4",
            ContentError::RealBaseOrScale => "11.3.1",
            ContentError::RealExponentNotFewest => "11.3.1",
            ContentError::RealMantissaNotFewest => "11.3.1",
            ContentError::RealSpecial => "8.5.9",
            ContentError::RealDecimal => "8.5.8",
            ContentError::RealDecimalNotStrict => "11.3.2",
            ContentError::NotUtf8 => "8.21, 8.22, 8.23.10",
            ContentError::CharacterOutside => "8.23",
            ContentError::UniversalStringLength => "8.23.7",
            ContentError::BmpStringLength => "8.23.9",
            ContentError::TimeText => "8.25",
            ContentError::TimeNotInZ => "11.7.1, 11.8.1",
            ContentError::TimeWithoutSeconds => "11.7.2, 11.8.2",
            ContentError::TimeComma => "11.7.4",
            ContentError::TimeLastZero => "11.7.3",
            ContentError::SequencePrimitive => "8.9.1",
            ContentError::SetPrimitive => "8.11.1",
            ContentError::EmbeddedPdvPrimitive => "8.17",
            ContentError::ExternalPrimitive => "8.18.1",
            ContentError::CharacterStringPrimitive => "8.24",
        }
    }
}

impl fmt::Display for ContentError {
    ghost use Rattle.der_contents.specs.ContentErrors.{content_error_text};

    ghost output = { λ e. Some (content_error_text e) };

    fn fmt<W: fmt::Write>(&self, f: &mut fmt::Formatter<W>) -> fmt::Result {
        let found = self.found();
        let clause = self.clause();
        write!(f, "{found} (X.690 {clause})")
    }
}
