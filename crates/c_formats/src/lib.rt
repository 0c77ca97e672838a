//! The structs of the C library for certificates, extensions, CRLs, keys and CSRs. `dumarewhi_c` exports the calls.
#![tactic(auto)]

pub mod access;
pub mod certificate;
pub mod decode;
pub mod directory;
pub mod extension;
pub mod found;
pub mod items;
pub mod key;
pub mod key_kind;
pub mod lists;
pub mod name_text;
pub mod other_keys;
pub mod path;
pub mod point;
pub mod policy;
pub mod request;
pub mod revocation;
pub mod revoked;
pub mod rules;
pub mod sequences;
pub mod subtree;
pub mod text;
pub mod web;
pub mod writing;
