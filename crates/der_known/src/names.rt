//! Names (RFC 5280 4.1.2.4, 4.2.1.6) and attributes (X.501 8.2).
use crate::numbered::{GENERAL_NAME, NAME};
use crate::universal::{DIRECTORY_STRING, OBJECT_IDENTIFIER};
use der_schema::schema::{Component, Inside, Type};
use der_schema::{explicit, field, implicit, optional, sequence, sequence_of, set_of};

/// A Name.
static NAME_TYPE: Component =
    field!("" sequence_of!(field!("relativeDistinguishedName" RELATIVE_NAME)));

fn name() -> &'static Component {
    &NAME_TYPE
}

const RELATIVE_NAME: Type = set_of!(field!("attributeTypeAndValue" sequence![
    field!("type" OBJECT_IDENTIFIER),
    field!("value" Type::Any),
]));

/// A GeneralName.
static GENERAL_NAME_TYPE: Component = field!("generalName" Type::Choice(&[
    field!("otherName" implicit!(0 Inside::Components(&[
        field!("type-id" OBJECT_IDENTIFIER),
        field!("value" explicit!(0 field!("" Type::Any))),
    ]))),
    field!("rfc822Name" implicit!(1 string)),
    field!("dNSName" implicit!(2 string)),
    field!("x400Address" implicit!(3 Inside::Free)),
    field!("directoryName" implicit!(4 Inside::Components(&[field!("" NAME)]))),
    field!("ediPartyName" implicit!(5 Inside::Components(&[
        optional!("nameAssigner" explicit!(0 field!("" DIRECTORY_STRING))),
        field!("partyName" explicit!(1 field!("" DIRECTORY_STRING))),
    ]))),
    field!("uniformResourceIdentifier" implicit!(6 string)),
    field!("iPAddress" implicit!(7 string)),
    field!("registeredID" implicit!(8)),
]));

fn general_name() -> &'static Component {
    &GENERAL_NAME_TYPE
}

/// What is inside GeneralNames.
pub(crate) const GENERAL_NAMES: Inside = Inside::Each(&field!("" GENERAL_NAME));

/// An attribute whose values are any elements.
pub(crate) const ANY_ATTRIBUTE: Type = sequence![
    field!("type" OBJECT_IDENTIFIER),
    field!("values" set_of!(field!("value" Type::Any))),
];

/// The types of this module, in the order of their numbers.
pub(crate) fn types() -> [&'static Component; 2] {
    [name(), general_name()]
}
