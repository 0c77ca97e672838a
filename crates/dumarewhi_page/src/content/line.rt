//! The line of a row.
use der_elements::{Element, Rules};
use der_print::{Limit, Remark, Value};
use std::fmt;

/// The line of an element as `der tree` prints it: its offset, the octets of its header and content, its type, indented
/// by two columns for each element around it, and its value.
#[derive(Clone, Copy)]
pub struct Line<'a> {
    pub element: Element<'a>,
    /// How much of a long value is printed.
    pub limit: Limit,
}

impl fmt::Display for Line<'_> {
    fn fmt<W: fmt::Write>(&self, f: &mut fmt::Formatter<W>) -> fmt::Result {
        let element = self.element;
        let limit = self.limit;
        write_front(f, &element)?;
        match element.holds {
            Some(Rules::Ber) => return f.write_str(" holding BER"),
            Some(Rules::Der) => return f.write_str(" holding DER"),
            None => write!(f, "{}", Value { element, limit })?,
        }
        match Remark::on(&element) {
            Some(remark) => write!(f, "  {remark}"),
            None => Ok(()),
        }
    }
}

/// Writes the part before the value.
fn write_front<W: fmt::Write>(f: &mut fmt::Formatter<W>, element: &Element<'_>) -> fmt::Result {
    let offset = element.offset;
    let header = element.header;
    match element.length {
        Some(length) => write!(f, "{offset:>7} {header:>2}+{length:<7} ")?,
        None => write!(f, "{offset:>7} {header:>2}+inf     ")?,
    }
    for _ in 0..element.depth {
        f.write_str("  ")?;
    }
    write!(f, "{}", element.name())
}
