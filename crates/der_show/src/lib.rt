//! Summaries of octets: of a certificate, a CRL, a certification request, a key, or a message of Kerberos, SNMP or
//! LDAP. The first of these formats that all the octets have is shown, with a line for each field.
//!
//! Octets of another known type are shown with a line for each element, which has the name of its field. Certificates,
//! CRLs and certification requests among the elements have summaries.
//!
//! ```
//! match words_of(alloc, octets, Some(now))? {
//!     Some(words) => out.write_all(words.text.as_slice())?,
//!     None => match why_unread(octets) {
//!         Some(unread) => write!(out, "{unread}\n")?,
//!         None => {}
//!     },
//! }
//! ```
#![tactic(auto)]

mod by_type;
mod extension;
mod field_lines;
mod fields;
mod json;
mod kerberos_request;
mod key;
mod known;
mod ldap_message;
mod manner;
mod message;
mod part;
mod place;
mod place_text;
mod refused;
mod refused_text;
mod rules;
mod shown;
mod snmp_message;
mod text;
mod unread;
mod why;
mod words;

pub use certificate_text::Why;
pub use fields::{words_as, words_by_fields};
pub use json::json_of_words;
pub use known::{Known, what_is};
pub use message::{text_of_key, words_of_message};
pub use place::Place;
pub use refused::Refused;
pub use refused_text::text_of_refused;
pub use shown::{Shown, write_known};
pub use unread::{Unread, why_unread};
pub use words::{Words, words_of};
