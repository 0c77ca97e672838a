//! Faults that end the program, and the texts that report them.
use der_parser::cursor::ReadError;
use der_parser::error::BerError;

/// Why the program ends before its input does.
#[derive(Debug, Drop, thiserror::Error)]
pub enum Fault {
    /// The argument names no command.
    #[error("usage: derdump ber|der|canon")]
    Usage,
    /// The input wasn't read to its end.
    #[error("error: {0}")]
    Input(InputFault),
    /// An element is refused, or there was no memory for it.
    #[error("error at {}: {}", .0.offset, .0.reason)]
    Element(ReadError<BerError>),
    /// A write or a flush failed.
    #[error("error: write failed")]
    Write,
    /// There was no memory.
    #[error("error: out of memory")]
    OutOfMemory,
}

/// Why there is no input.
#[derive(Debug, Drop, thiserror::Error)]
pub enum InputFault {
    /// There are more octets than are read.
    #[error("input too large")]
    TooLarge,
    /// A read returned an error.
    #[error("read failed")]
    ReadFailed,
    /// There was no memory for the octets.
    #[error("out of memory")]
    OutOfMemory,
}
