//! Facts for rules of RFC 5280: the syntax of general names, known identifiers, algorithms, types of extension values
//! and what these values say.
#![tactic(auto)]

pub mod algorithms;
pub mod attributes;
pub mod constraint;
pub mod display;
pub mod host_name;
pub mod identified;
pub mod identifier;
pub mod mailbox;
pub mod readers;
pub mod types;
pub mod uri;
pub mod value_facts;
