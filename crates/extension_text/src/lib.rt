//! Summaries of extensions (RFC 5280 4.2): a line for each field of a value, or the error of a value of another type.
//! `names` has distinguished names as text. Nothing allocates.
#![tactic(auto)]

mod address;
mod authority;
pub mod extension;
pub mod general_name;
mod items;
mod lists;
pub mod names;
mod notice;
mod points;
mod policies;
mod timestamps;
pub mod unread;
mod usage;
mod value;
mod web;
mod why;

pub use why::{ErrorText, Why, is_at_end, why_of};
