//! How the elements of a type are shown in words: a line `Label: value` for each that has words.

/// The words of a component.
#[derive(Clone, Copy, Debug, PartialEq)]
pub struct Words {
    /// The label of its line. If it is empty, the label is the one around the element, or that of a `Label` before it.
    pub label: &'static str,
    /// What is in front of the value, such as the name of its type, or empty.
    pub kind: &'static str,
    pub notation: Notation,
    /// Whether the lines of what follows it in the same content are one level deeper.
    pub heads: bool,
}

/// What a line says of an element. That of an explicit tag is what its line says of the element inside.
#[derive(Clone, Copy, Debug, PartialEq)]
pub enum Notation {
    /// It has no line, but what is inside may have some.
    Silent,
    /// It has no line, and nothing inside has one.
    Skipped,
    /// Only the label. Lines of what is inside are one level deeper.
    Title,
    /// The number of elements inside. Their lines are one level deeper.
    Count,
    /// This word, whatever the content is. Lines of what is inside are as deep as its own.
    Word(&'static str),
    /// It has no line, but is the label of what follows it in the same content.
    Label,
    /// A number in decimal digits.
    Number,
    /// A number, and its name if it has one.
    NumberOf(&'static [NumberName]),
    /// The name of a number, or the number if it has none.
    NameOf(&'static [NumberName]),
    /// An identifier by its arcs.
    Arcs,
    /// A text in quotes if the octets are printable ASCII, else hexadecimal digits.
    Octets,
    /// Hexadecimal digits.
    Hex,
    /// The number of octets.
    Length,
    /// An address of IPv4.
    Address,
    /// A text in quotes.
    Text,
    /// The texts of the elements inside, each in quotes, with slashes between them.
    Joined,
    /// The time of a GeneralizedTime, or its text in quotes if it is none.
    GeneralizedTime,
    /// `true` or `false`.
    Boolean,
    /// A text in quotes if the octets are UTF-8 without control characters, else hexadecimal digits.
    TextOrHex,
    /// A search filter of LDAP, as RFC 4515 writes it.
    Filter,
}

/// The name of a number.
#[derive(Clone, Copy, Debug, PartialEq)]
pub struct NumberName {
    pub number: u32,
    pub name: &'static str,
}

/// The words of a component: its label, what is in front of the value, its notation, whether it heads what follows.
#[macro_export]
macro_rules! words {
    ($label:literal $notation:ident) => {
        $crate::worded!($label "" false $crate::words::Notation::$notation)
    };
    ($label:literal $notation:ident heads) => {
        $crate::worded!($label "" true $crate::words::Notation::$notation)
    };
    ($label:literal $notation:ident ($names:expr)) => {
        $crate::worded!($label "" false $crate::words::Notation::$notation($names))
    };
    ($label:literal $kind:literal $notation:ident) => {
        $crate::worded!($label $kind false $crate::words::Notation::$notation)
    };
}

/// Words with this label, with this in front of the value, heading what follows or not, in this notation.
#[macro_export]
macro_rules! worded {
    ($label:literal $kind:literal $heads:literal $notation:expr) => {
        $crate::words::Words { label: $label, kind: $kind, notation: $notation, heads: $heads }
    };
}

/// Names of numbers: `names![0 "noError", 1 "tooBig"]`.
#[macro_export]
macro_rules! names {
    ($($number:literal $name:literal),* $(,)?) => {
        &[$($crate::words::NumberName { number: $number, name: $name }),*]
    };
}
