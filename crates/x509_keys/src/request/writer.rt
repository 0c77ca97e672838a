//! Writes certification requests (PKCS #10, RFC 2986) to a buffer, and parts that certificates share: names,
//! algorithms, public keys and alternative names.
mod algorithm;
mod alternative_names;
pub mod laws;
mod name;
mod request;

pub use algorithm::{
    AlgorithmIdentifier, Parameters, PublicKeyInfo, put_algorithm, put_public_key_info,
};
pub use alternative_names::{put_alternative_names, put_extension_request};
pub use name::{NameAttribute, put_name};
pub use request::{RequestInfo, put_request_info, write_request_info};
