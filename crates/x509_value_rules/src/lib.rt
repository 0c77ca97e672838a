//! Rules of RFC 5280 about extension values, such as general names and policies, and what the extensions of a
//! certificate, a CRL or a CRL entry show.
#![tactic(auto)]

mod directory;
pub mod display;
pub mod facts;
pub mod issuers;
pub mod issuing_point;
pub mod mappings;
pub mod names;
pub mod notices;
mod party_name;
pub mod points;
pub mod policies;
mod reading;
pub mod sorted;
pub mod subtrees;
mod user_notice;
pub mod value_rules;
