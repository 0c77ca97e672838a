//! BER and DER (X.690), read and written. Users import this crate alone: it names the calls of the crates below it. Of
//! its own it has `view`, and what stands on these names alone: `names`, `uses` and `law_names`.
#![tactic(auto)]

pub mod view;

pub use der_base::error::IResult;
pub use der_base::oid::Oid;
pub use der_base::rules::Rules;
pub use der_readers::ber::parse_ber;
pub use der_readers::der::parse_der;

/// Errors, and what a parser returns.
pub mod error {
    pub use der_base::error::{
        BerError, DerConstraint, Err, Error, ErrorKind, GenError, IResult, Needed, ParseError,
    };
    pub use der_object::{BerResult, DerResult};
}

/// Objects, what BER and DER share, and reading by BER.
pub mod ber {
    pub use der_base::any::Any;
    pub use der_base::header::{
        Class, Header, HeaderCount, Length, Tag, ber_header_counted, ber_read_element_header,
    };
    pub use der_base::time::{ASN1DateTime, ASN1TimeZone, TimeText};
    pub use der_base::{MAX_OBJECT_SIZE, MAX_RECURSION};
    pub use der_combinators::{
        Container, ExplicitContainer, ExplicitObject, ImplicitContainer, ImplicitObject,
        ListObject, ListOfObjects, ListOfValues, NumberedContainer, OptionalObject,
        parse_ber_container, parse_ber_explicit_optional, parse_ber_implicit, parse_ber_optional,
        parse_ber_sequence_defined, parse_ber_sequence_defined_g, parse_ber_sequence_of,
        parse_ber_sequence_of_v, parse_ber_set_defined, parse_ber_set_defined_g, parse_ber_set_of,
        parse_ber_set_of_v, parse_ber_slice, parse_ber_tagged_explicit,
        parse_ber_tagged_explicit_g, parse_ber_tagged_implicit, parse_ber_tagged_implicit_g,
    };
    pub use der_object::{
        BerObject, BerObjectContent, BerObjectIntoIterator, BerObjectRefIterator, BitStringObject,
        FaultWriter, ber_encode_header, ber_encode_object, ber_encode_object_raw,
        ber_encode_tagged_explicit, ber_encode_tagged_implicit,
    };
    pub use der_readers::ber::{
        parse_ber, parse_ber_any, parse_ber_any_r, parse_ber_any_with_tag_r, parse_ber_counted,
        parse_ber_recursive,
    };
    pub use der_readers::types::{
        ContentReader as BerContent, ContentReader2 as BerContent2, ber_object_from_any,
        ber_read_element_content_as, parse_ber_bitstring, parse_ber_bmpstring, parse_ber_bool,
        parse_ber_content, parse_ber_content2, parse_ber_endofcontent, parse_ber_enum,
        parse_ber_generalizedtime, parse_ber_generalstring, parse_ber_graphicstring, parse_ber_i32,
        parse_ber_i64, parse_ber_ia5string, parse_ber_integer, parse_ber_null,
        parse_ber_numericstring, parse_ber_objectdescriptor, parse_ber_octetstring, parse_ber_oid,
        parse_ber_printablestring, parse_ber_relative_oid, parse_ber_sequence, parse_ber_set,
        parse_ber_t61string, parse_ber_u32, parse_ber_u64, parse_ber_universalstring,
        parse_ber_utctime, parse_ber_utf8string, parse_ber_videotexstring, parse_ber_visiblestring,
        parse_ber_with_tag,
    };

    /// Names that earlier versions of the crate had.
    pub mod compat {
        pub use der_base::header::{
            Class as BerClass, Header as BerObjectHeader, Length as BerSize, Tag, Tag as BerTag,
        };
    }

    pub use der_object::{PrettyBer, PrettyPrinterFlag};
    pub use der_visit::{Handles, HandlesMut, Visit, VisitMut, Walk, WalkMut};
}

/// Reading by DER.
pub mod der {
    pub use der_base::header::{
        Class, Class as DerClass, Header, Header as DerObjectHeader, Tag, Tag as DerTag,
        der_header_counted, der_read_element_header,
    };
    pub use der_combinators::{
        Container, ExplicitContainer, ExplicitObject, ImplicitContainer, ImplicitObject,
        ListObject, ListOfObjects, ListOfValues, NumberedContainer, OptionalObject,
        parse_der_container, parse_der_explicit_optional, parse_der_implicit, parse_der_optional,
        parse_der_sequence_defined, parse_der_sequence_defined_g, parse_der_sequence_of,
        parse_der_sequence_of_v, parse_der_set_defined, parse_der_set_defined_g, parse_der_set_of,
        parse_der_set_of_v, parse_der_slice, parse_der_tagged_explicit,
        parse_der_tagged_explicit_g, parse_der_tagged_implicit, parse_der_tagged_implicit_g,
    };
    pub use der_object::{DerObject, DerObjectContent};
    pub use der_readers::der::{parse_der, parse_der_counted, parse_der_recursive};
    pub use der_readers::types::{
        ContentReader as DerContent, ContentReader2 as DerContent2, der_read_element_content,
        der_read_element_content_as, parse_der_bitstring, parse_der_bmpstring, parse_der_bool,
        parse_der_content, parse_der_content2, parse_der_endofcontent, parse_der_enum,
        parse_der_generalizedtime, parse_der_generalstring, parse_der_graphicstring, parse_der_i32,
        parse_der_i64, parse_der_ia5string, parse_der_integer, parse_der_null,
        parse_der_numericstring, parse_der_objectdescriptor, parse_der_octetstring, parse_der_oid,
        parse_der_printablestring, parse_der_relative_oid, parse_der_sequence, parse_der_set,
        parse_der_t61string, parse_der_u32, parse_der_u64, parse_der_universalstring,
        parse_der_utctime, parse_der_utf8string, parse_der_videotexstring, parse_der_visiblestring,
        parse_der_with_tag, visiblestring,
    };
}

/// Reading field after field, with the offset of an error.
pub mod cursor {
    pub use der_cursor::{AsBerError, Cursor, FieldError, Named, ReadError};
}

/// Values of content octets, by BER and by DER.
pub mod values {
    pub use der_values::{
        BitString, HasArcs, known_oid, read_bits, read_bool, read_enumerated, read_i32, read_i64,
        read_identifier, read_integer, read_null, read_oid, read_text, read_time, read_u32,
        read_u64, to_decimal,
    };
}

/// Elements by their offsets in the input, listed without memory by the rules of X.690, and a view of
/// them.
pub mod nodes {
    pub use crate::view::{Node, Nodes, Preorder, Trees, Value, read_element};
    pub use der_elements::check::{
        Element, Listed, Slot, are_elements, check_element, is_element, list_element, list_elements,
    };
}

/// Object identifiers.
pub mod oid {
    pub use der_base::error::OidParseError;
    pub use der_base::oid::{Oid, OidIter};
    pub use der_values::{ArcNumber, Arcs, ObjectIdentifier, U128Arcs};
}

/// Laws of the definitions and of what is read and written. Each is a function with an empty body,
/// whose contract is the law.
pub mod laws {
    pub use crate::view::laws::{
        der_trees_show, elements_show, nodes_show_one_tree, values_are_one,
    };
    pub use der_base::laws::{
        clones_are_the_value, clones_want_no_memory, equals_are_alike, equals_are_the_same,
    };
    pub use der_base::oid::arcs_come_back;
    pub use der_cursor::laws::{cursor_clones_are_the_value, places_are_exact};
    pub use der_elements::check::laws::elements_have_one_list;
    pub use der_object::laws::{equals_have_one_tree, small_clones_are_the_value};
    pub use der_readers::ber::laws::written_is_read_back;
    pub use der_readers::der::laws::written_is_what_was_read;
    pub use der_values::laws::{
        always_one, appended_lengthen_headers, appended_only_lengthen, der_is_within_ber,
        elements_are_never_refused, encoding_is_normal_form, faults_are_one, fronts_are_cut,
        header_fronts_are_cut, integers_are_shortest, lengths_are_shortest,
        lengths_show_in_headers, never_both, numbers_fit_or_are_refused, one_content, one_refusal,
        opened_in_one_way, opened_never_refused, refused_headers_stay_refused,
        set_of_has_one_order, spellings_are_one, tag_numbers_are_shortest, unused_bits_are_last,
    };
}
