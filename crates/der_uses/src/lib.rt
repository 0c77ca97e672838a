//! Uses of `der_parser`, one in each function, from a crate whose code names `der_parser` alone. The doc comments of
//! the library's calls show these bodies, and `handed` passes the library's functions on by name.
#![tactic(auto)]

mod handed;
pub mod law_names;
pub mod names;
mod shown;

pub use handed::{Ticket, read_identifiers, read_numbers, read_objects, read_ticket};
pub use shown::{
    Depths, Found, NoLargest, elements_in, first_object, is_common_name, is_pair, item_count,
    item_numbers, largest_item, make_request, missing_octets, object_count, print_object,
    read_serial_number, rewrite_by_der, tagged_number, write_object,
};
