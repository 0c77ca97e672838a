//! Reads LDAP messages (RFC 4511). `writer` writes searches.
mod controls;
mod filter;
mod filter_items;
mod filters;
mod items;
mod message;
mod reader;
mod text;
pub mod writer;

pub use filter::{Connective, FilterPart, Piece, Place, Relation};
pub use filters::{DEEPEST_FILTER, read_search_filter};
pub use message::{Attribute, Change, Content, Control, Message, Operation, Search};
pub use reader::read_message;
