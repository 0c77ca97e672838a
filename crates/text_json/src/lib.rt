//! ASN.1 elements as lines of JSON. docs/der-json.schema.json describes their members. `shown` has summaries as JSON,
//! and `fields` elements as lines for people, with the names of fields.
#![tactic(auto)]

pub mod fields;
mod members;
mod moment;
mod number;
mod object;
mod paths;
mod sent;
pub mod shown;
mod value;

pub use object::{Object, Source, write_json, write_secret};
pub use paths::Paths;
