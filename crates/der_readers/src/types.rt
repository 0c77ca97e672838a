//! The readers of one type: of a content after its header, of an element of a tag number, and of the number of an
//! INTEGER. The functions take the rules, BER or DER, as a value.
pub mod content;
pub mod number;
pub mod typed;

pub use content::{
    ContentReader, ContentReader2, ber_object_from_any, ber_read_element_content_as,
    der_read_element_content, der_read_element_content_as, parse_ber_content, parse_ber_content2,
    parse_der_content, parse_der_content2,
};
pub use number::{
    parse_ber_i32, parse_ber_i64, parse_ber_u32, parse_ber_u64, parse_der_i32, parse_der_i64,
    parse_der_u32, parse_der_u64,
};
pub use typed::{
    parse_ber_bitstring, parse_ber_bmpstring, parse_ber_bool, parse_ber_endofcontent,
    parse_ber_enum, parse_ber_generalizedtime, parse_ber_generalstring, parse_ber_graphicstring,
    parse_ber_ia5string, parse_ber_integer, parse_ber_null, parse_ber_numericstring,
    parse_ber_objectdescriptor, parse_ber_octetstring, parse_ber_oid, parse_ber_printablestring,
    parse_ber_relative_oid, parse_ber_sequence, parse_ber_set, parse_ber_t61string,
    parse_ber_universalstring, parse_ber_utctime, parse_ber_utf8string, parse_ber_videotexstring,
    parse_ber_visiblestring, parse_ber_with_tag, parse_der_bitstring, parse_der_bmpstring,
    parse_der_bool, parse_der_endofcontent, parse_der_enum, parse_der_generalizedtime,
    parse_der_generalstring, parse_der_graphicstring, parse_der_ia5string, parse_der_integer,
    parse_der_null, parse_der_numericstring, parse_der_objectdescriptor, parse_der_octetstring,
    parse_der_oid, parse_der_printablestring, parse_der_relative_oid, parse_der_sequence,
    parse_der_set, parse_der_t61string, parse_der_universalstring, parse_der_utctime,
    parse_der_utf8string, parse_der_videotexstring, parse_der_visiblestring, parse_der_with_tag,
    visiblestring,
};
