//! Reads SNMP messages of version 1 (RFC 1157) and 2c (RFC 1901, RFC 3416). `writer` writes those of version 2c.
mod message;
mod reader;
mod text;
mod value;
pub mod writer;

pub use message::{Binding, Content, Message, Operation, Pdu, Value, Version};
pub use reader::read_message;
