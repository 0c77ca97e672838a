//! The C library: elements, values and errors as structs and numbers. A slice is a pointer and a length there.
//! `callers/c/include/dumarewhi.h` declares all calls.
#![tactic(auto)]

pub mod access;
pub mod certificate;
pub mod digest;
pub mod directory;
pub mod error_text;
pub mod extension;
pub mod fields;
pub mod identifier;
pub mod key;
pub mod key_kind;
pub mod lists;
pub mod name_text;
pub mod next;
pub mod opening;
pub mod other_keys;
pub mod path;
pub mod pem;
pub mod point;
pub mod policy;
pub mod readers;
pub mod request;
pub mod revocation;
pub mod revoked;
pub mod rules;
pub mod subtree;
pub mod tested;
pub mod unknown;
pub mod values;
pub mod version;
pub mod web;
pub mod writer;
