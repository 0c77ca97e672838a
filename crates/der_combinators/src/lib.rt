//! Combinators: parsers that keep a caller's parser. Each keeps the rules, BER or DER, by which it
//! opens an element.
#![tactic(auto)]

pub mod containers;
mod item;
mod items;
mod list_type;
pub mod lists;
mod opening;
pub mod slice;
pub mod tagged;
mod wrapping;

pub use containers::{
    Container, NumberedContainer, parse_ber_container, parse_ber_sequence_defined_g,
    parse_ber_set_defined_g, parse_der_container, parse_der_sequence_defined_g,
    parse_der_set_defined_g,
};
pub use list_type::ListType;
pub use lists::{
    ListObject, ListOfObjects, ListOfValues, parse_ber_sequence_defined, parse_ber_sequence_of,
    parse_ber_sequence_of_v, parse_ber_set_defined, parse_ber_set_of, parse_ber_set_of_v,
    parse_der_sequence_defined, parse_der_sequence_of, parse_der_sequence_of_v,
    parse_der_set_defined, parse_der_set_of, parse_der_set_of_v,
};
pub use slice::{parse_ber_slice, parse_der_slice};
/// Optional objects are read alike by BER and by DER: the kept parser decides.
pub use tagged::{
    ExplicitContainer, ExplicitObject, ImplicitContainer, ImplicitObject, OptionalObject,
    parse_ber_explicit_optional, parse_ber_implicit, parse_ber_optional,
    parse_ber_optional as parse_der_optional, parse_ber_tagged_explicit,
    parse_ber_tagged_explicit_g, parse_ber_tagged_implicit, parse_ber_tagged_implicit_g,
    parse_der_explicit_optional, parse_der_implicit, parse_der_tagged_explicit,
    parse_der_tagged_explicit_g, parse_der_tagged_implicit, parse_der_tagged_implicit_g,
};
