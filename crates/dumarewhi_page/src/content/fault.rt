//! Why elements are rejected.
use der_elements::{Path, Reason};
use std::fmt;

/// The error of an element, such as `at 13, SEQUENCE[0].INTEGER[1]: a number has no octets (X.690 8.3.1)`.
#[derive(Clone, Copy)]
pub struct Fault<'a> {
    /// The offset of the element.
    pub offset: usize,
    pub path: &'a Path,
    pub reason: Reason<'a>,
}

impl fmt::Display for Fault<'_> {
    fn fmt<W: fmt::Write>(&self, f: &mut fmt::Formatter<W>) -> fmt::Result {
        let offset = self.offset;
        let path = self.path;
        let reason = self.reason;
        write!(f, "at {offset}")?;
        if !path.is_empty() {
            write!(f, ", {path}")?;
        }
        write!(f, ": {reason}")
    }
}
