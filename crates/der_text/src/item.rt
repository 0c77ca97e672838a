//! The items of a text.

/// How length octets are written (X.690 8.1.3).
#[derive(Clone, Copy, Debug, PartialEq)]
pub enum Form {
    /// The fewest octets (10.1).
    Shortest,
    /// The long form, with this number of octets after the first (8.1.3.5).
    Long(u8),
    /// The indefinite form (8.1.3.6).
    Indefinite,
}

/// An octet or a brace. A brace has the number of octets of the text from it, or from the form before it, to the end.
#[derive(Clone, Copy)]
pub enum Item {
    /// An octet.
    Octet(u8),
    /// Length octets for the content up to the closing brace.
    Open(Form, usize),
    /// The end of a content.
    Close(usize),
}

/// The end of an open content.
#[derive(Clone, Copy)]
pub struct End {
    /// The number of octets after it.
    pub after: usize,
    /// The number of octets of the text that are left at its brace.
    pub left: usize,
}
