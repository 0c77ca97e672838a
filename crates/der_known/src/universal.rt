//! The universal types (X.680 8.4, table 1).
use der_schema::schema::Type;
use der_schema::{field, string, universal};

pub(crate) const BOOLEAN: Type = universal!(1);

pub(crate) const INTEGER: Type = universal!(2);

pub(crate) const BIT_STRING: Type = string!(3);

pub(crate) const OCTET_STRING: Type = string!(4);

pub(crate) const NULL: Type = universal!(5);

pub(crate) const OBJECT_IDENTIFIER: Type = universal!(6);

pub(crate) const ENUMERATED: Type = universal!(10);

pub(crate) const UTF8_STRING: Type = string!(12);

pub(crate) const IA5_STRING: Type = string!(22);

pub(crate) const GENERALIZED_TIME: Type = string!(24);

pub(crate) const GENERAL_STRING: Type = string!(27);

pub(crate) const BMP_STRING: Type = string!(30);

/// A time (RFC 5280 4.1.2.5).
pub(crate) const TIME: Type = Type::Choice(&[field!("" string!(23)), field!("" GENERALIZED_TIME)]);

/// A DirectoryString (RFC 5280 4.1.2.4), and an IA5String, which some attributes have.
pub(crate) const DIRECTORY_STRING: Type = Type::Choice(&[
    field!("" UTF8_STRING),
    field!("" string!(19)),
    field!("" string!(20)),
    field!("" BMP_STRING),
    field!("" string!(28)),
    field!("" IA5_STRING),
]);
