//! The names of types and tags, as ASN.1 writes them.
ghost use Rattle.std.specs.Prelude.{◌≡◌};
ghost use Rattle.std.specs.Option.{option_copied};
ghost use Rattle.der_base.specs.Names.{name_at};
ghost use Rattle.der_elements.specs.TypeNames.{known_text, string_names, universal_names};

use der_base::header::Class;
use std::fmt;

/// The name of a universal type, such as `OCTET STRING`, or of another tag, such as `[3]` or `[APPLICATION 1]`.
#[derive(Clone, Copy, Debug, PartialEq)]
pub struct TypeName {
    pub class: Class,
    /// The tag number.
    pub number: u32,
}

impl TypeName {
    /// The name of the universal type (X.680 8.4, table 1). None for any other tag.
    pub fn known(&self) -> Option<&'static str>
        ensures { option_copied result ≡ known_text self.now.class self.now.number }
    {
        match self.class {
            Class::Universal => universal_name(self.number),
            Class::Application | Class::ContextSpecific | Class::Private => None,
        }
    }
}

impl fmt::Display for TypeName {
    ghost use Rattle.std.specs.Prelude.{Some};
    ghost use Rattle.der_elements.specs.TypeNames.{type_text};

    ghost output = { λ x. Some (type_text x.class x.number) };

    fn fmt<W: fmt::Write>(&self, f: &mut fmt::Formatter<W>) -> fmt::Result {
        if let Some(name) = self.known() {
            return f.write_str(name);
        }
        let number = self.number;
        match self.class {
            Class::Universal => write!(f, "[UNIVERSAL {number}]"),
            Class::Application => write!(f, "[APPLICATION {number}]"),
            Class::ContextSpecific => write!(f, "[{number}]"),
            Class::Private => write!(f, "[PRIVATE {number}]"),
        }
    }
}

/// The name of the universal type with this number (X.680 8.4, table 1).
fn universal_name(number: u32) -> Option<&'static str>
    ensures { option_copied result ≡ name_at universal_names number }
{
    let name = match number {
        0 => "end-of-contents",
        1 => "BOOLEAN",
        2 => "INTEGER",
        3 => "BIT STRING",
        4 => "OCTET STRING",
        5 => "NULL",
        6 => "OBJECT IDENTIFIER",
        7 => "ObjectDescriptor",
        8 => "EXTERNAL",
        9 => "REAL",
        10 => "ENUMERATED",
        11 => "EMBEDDED PDV",
        12 => "UTF8String",
        13 => "RELATIVE-OID",
        14 => "TIME",
        16 => "SEQUENCE",
        17 => "SET",
        _ => return string_name(number),
    };
    Some(name)
}

/// The name of a universal type whose number is that of NumericString or above.
fn string_name(number: u32) -> Option<&'static str>
    ensures { option_copied result ≡ name_at string_names number }
{
    let name = match number {
        18 => "NumericString",
        19 => "PrintableString",
        20 => "T61String",
        21 => "VideotexString",
        22 => "IA5String",
        23 => "UTCTime",
        24 => "GeneralizedTime",
        25 => "GraphicString",
        26 => "VisibleString",
        27 => "GeneralString",
        28 => "UniversalString",
        29 => "CHARACTER STRING",
        30 => "BMPString",
        31 => "DATE",
        32 => "TIME-OF-DAY",
        33 => "DATE-TIME",
        34 => "DURATION",
        35 => "OID-IRI",
        36 => "RELATIVE-OID-IRI",
        _ => return None,
    };
    Some(name)
}
