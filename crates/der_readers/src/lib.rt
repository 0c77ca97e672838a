//! The readers of objects: of BER (X.690 8), of DER (X.690 10 and 11), and of one type by either.
#![tactic(auto)]

pub mod ber;
pub mod der;
pub mod types;
