//! The encoding rules, as a value.
ghost use Rattle.der_base.specs.Rules.{AnswersHeader};

use crate::error::{BerError, IResult};
use crate::header::{Header, ber_read_element_header, der_read_element_header};

/// The basic or the distinguished encoding rules (X.690 8 and 10).
#[derive(Clone, Copy, Debug, PartialEq)]
pub enum Rules {
    /// The Basic Encoding Rules.
    Ber,
    /// The Distinguished Encoding Rules.
    Der,
}

impl Rules {
    /// Reads the header at the start of an element, as `ber_read_element_header` or
    /// `der_read_element_header`.
    #[inline(always)]
    pub fn read_header<'a>(self, i: &'a [u8]) -> IResult<&'a [u8], Header<'a>, BerError>
        ensures { AnswersHeader self i.now result }
    {
        match self {
            Rules::Ber => ber_read_element_header(i),
            Rules::Der => der_read_element_header(i),
        }
    }
}
