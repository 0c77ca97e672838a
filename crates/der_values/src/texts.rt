//! The string types (X.690 8.23).
ghost use Rattle.std.specs.Prelude.{IsTrue};
ghost use Rattle.der_base.specs.Text.{is_text_type};
ghost use Rattle.der_values.specs.Kinds.{Decodes, texts};

use der_base::error::BerError;
use der_base::header::Tag;
use der_base::text::{self, is_utf16};

/// The text of a string type that is kept as a text (X.690 8.23): NumericString, PrintableString, IA5String and
/// VisibleString in their character sets; ObjectDescriptor, UTF8String, T61String, VideotexString, GraphicString and
/// GeneralString as UTF-8. StringInvalidCharset for other octets.
#[inline(always)]
pub fn read_text(tag: Tag, octets: &[u8]) -> Result<&str, BerError>
    requires { IsTrue (is_text_type tag.0) }
    ensures { Decodes (λ v. v.now) (texts tag.0) octets.now result }
{
    match text::read_text(tag, octets) {
        Some(text) => Ok(text),
        None => Err(BerError::StringInvalidCharset),
    }
}

/// The octets of a BMPString (8.23.9), which are UTF-16. Unsupported for an odd number of octets; StringInvalidCharset
/// for a surrogate without its partner.
pub fn read_bmp_string(octets: &[u8]) -> Result<&[u8], BerError>
    ensures { Decodes (λ v. v.now) (texts 30) octets.now result }
{
    if octets.len() % 2 == 1 {
        return Err(BerError::Unsupported);
    }
    if !is_utf16(octets) {
        return Err(BerError::StringInvalidCharset);
    }
    Ok(octets)
}
