//! Writes values of content octets, for C.
ghost use Rattle.std.specs.Prelude.{◌≡◌, Result};
ghost use Rattle.c_values.specs.ErrorNumbers.{number_of_result};
ghost use Rattle.c_values.specs.Values.{AnswersBoolean, AnswersText, written};
ghost use Rattle.der_base.specs.declared.error.Error.{Error as BerError};

use crate::element::bit;
use crate::errors::{number_of_result, refusal_number};
use der_base::error::BerError;
use der_base::header::Tag;
use der_base::rules::Rules;
use der_base::text::is_text_type;
use der_values::{read_bmp_string, read_bool, read_text};

/// Writes a reader's value. Returns 0 or the number of the error.
pub fn write<V: Copy>(found: Result<V, BerError>, value: &mut V) -> u32
    ensures value { value.new ≡ written found value.old }
    ensures number { result ≡ number_of_result found }
{
    match found {
        Ok(v) => {
            *value = v;
            0
        }
        Err(e) => refusal_number(e),
    }
}

/// Reads a BOOLEAN as 0 or 1.
pub fn read_boolean(content: &[u8]) -> Result<u8, BerError>
    ensures { AnswersBoolean content.now result }
{
    Ok(bit(read_bool(Rules::Ber, content)?))
}

/// Checks a string of a type with octets as characters, or a BMPString.
pub fn check_text(tag: Tag, content: &[u8]) -> Result<(), BerError>
    ensures { AnswersText tag.0 content.now result }
{
    if tag == Tag::BmpString {
        read_bmp_string(content)?;
    } else if is_text_type(tag) {
        read_text(tag, content)?;
    } else {
        return Err(BerError::BerTypeError);
    }
    Ok(())
}
