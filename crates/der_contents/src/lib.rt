//! What X.690 asks of the content octets of a primitive element, as far as that needs no ASN.1 type. Nothing allocates.
#![tactic(auto)]

mod content_error;
mod content_rules;
mod grammar;
mod real_forms;
mod time_forms;

pub use content_error::ContentError;
pub use content_rules::check_content;
