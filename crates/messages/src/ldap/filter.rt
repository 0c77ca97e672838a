//! Filters of searches (RFC 4511 4.5.1.7).
ghost use Rattle.std.specs.Prelude.{◌≡◌};
ghost use Rattle.messages.specs.declared.ldap.filter.ItemKind.{ItemKind};
ghost use Rattle.messages.specs.Ldap.FilterKinds.{IsFilterAt, IsPlaceAt, connective_number, item_number, place_number};

use der_base::header::Tag;

/// A part of a filter. Parts are in the order of the filter's text (RFC 4515).
#[derive(Drop)]
pub enum FilterPart<'a> {
    /// The start of an `and`, `or` or `not`. Its filters follow, and then its `Close`.
    Open(Connective),
    /// The end of the innermost open connective.
    Close,
    /// An attribute and the value to compare it with.
    Comparison {
        relation: Relation,
        attribute: &'a [u8],
        value: &'a [u8],
    },
    /// An attribute and the pieces of its value: at least one, in the order initial, any, final.
    Substrings {
        attribute: &'a [u8],
        pieces: Vec<Piece<'a>>,
    },
    /// The attribute that an entry must have.
    Present(&'a [u8]),
    /// A match by a matching rule.
    Extensible {
        rule: Option<&'a [u8]>,
        attribute: Option<&'a [u8]>,
        value: &'a [u8],
        /// dnAttributes: whether attributes of the entry's name match too. None means false.
        name_attributes: Option<bool>,
    },
}

/// The connectives, with their tag numbers.
#[derive(Clone, Copy, Debug, PartialEq)]
pub enum Connective {
    And,
    Or,
    Not,
}

/// How to compare an attribute with a value.
#[derive(Clone, Copy, Debug, PartialEq)]
pub enum Relation {
    Equal,
    GreaterOrEqual,
    LessOrEqual,
    Approximate,
}

/// A piece of a value.
#[derive(Clone, Copy)]
pub struct Piece<'a> {
    pub place: Place,
    pub value: &'a [u8],
}

/// The position of a piece in the value, with its tag number.
#[derive(Clone, Copy, Debug, PartialEq)]
pub enum Place {
    Initial,
    Any,
    Final,
}

/// The kinds of filters.
#[derive(Clone, Copy, Debug, PartialEq)]
pub(crate) enum FilterKind {
    Connective(Connective),
    Item(ItemKind),
}

/// The kinds of filters without inner filters.
#[derive(Clone, Copy, Debug, PartialEq)]
pub(crate) enum ItemKind {
    Comparison(Relation),
    Substrings,
    Present,
    Extensible,
}

impl FilterKind {
    /// The filter with this context-specific tag.
    pub(crate) fn of_tag(tag: Tag) -> Option<FilterKind>
        ensures { IsFilterAt tag.0 result }
    {
        Some(match tag.0 {
            0 => FilterKind::Connective(Connective::And),
            1 => FilterKind::Connective(Connective::Or),
            2 => FilterKind::Connective(Connective::Not),
            3 => FilterKind::Item(ItemKind::Comparison(Relation::Equal)),
            4 => FilterKind::Item(ItemKind::Substrings),
            5 => FilterKind::Item(ItemKind::Comparison(Relation::GreaterOrEqual)),
            6 => FilterKind::Item(ItemKind::Comparison(Relation::LessOrEqual)),
            7 => FilterKind::Item(ItemKind::Present),
            8 => FilterKind::Item(ItemKind::Comparison(Relation::Approximate)),
            9 => FilterKind::Item(ItemKind::Extensible),
            _ => return None,
        })
    }
}

impl Connective {
    /// The context-specific tag.
    pub(crate) fn tag(self) -> Tag
        ensures { result.0 ≡ connective_number self }
    {
        Tag(self as u32)
    }
}

impl Relation {
    /// The context-specific tag of a comparison.
    pub(crate) fn tag(self) -> Tag
        ensures { result.0 ≡ item_number (ItemKind.Comparison self) }
    {
        match self {
            Relation::Equal => Tag(3),
            Relation::GreaterOrEqual => Tag(5),
            Relation::LessOrEqual => Tag(6),
            Relation::Approximate => Tag(8),
        }
    }
}

impl Place {
    /// The position with this context-specific tag.
    pub(crate) fn of_tag(tag: Tag) -> Option<Place>
        ensures { IsPlaceAt tag.0 result }
    {
        Some(match tag.0 {
            0 => Place::Initial,
            1 => Place::Any,
            2 => Place::Final,
            _ => return None,
        })
    }

    /// The tag number.
    pub(crate) fn number(self) -> u32
        ensures { result ≡ place_number self }
    {
        self as u32
    }
}
