//! Calls that read values of content octets. Each returns 0 and writes the value, or returns the number of an error and
//! writes nothing.
ghost use Rattle.std.specs.Prelude.{◌≡◌, Result, false};
ghost use Rattle.std.specs.Option.{option_map};
ghost use Rattle.c_values.specs.ErrorNumbers.{number_of_result};
ghost use Rattle.c_values.specs.Texts.{ReturnsText};
ghost use Rattle.c_values.specs.Values.{AnswersBoolean, AnswersText, AnswersTime, Returns};
ghost use Rattle.der_base.specs.declared.error.Error.{Error as BerError};
ghost use Rattle.der_base.specs.Numbers.{AnswersSigned, AnswersUnsigned};
ghost use Rattle.der_base.specs.Pretty.{dotted};
ghost use Rattle.der_base.specs.Tree.{integer};
ghost use Rattle.der_values.specs.ArcNumbers.{u128_arcs};

use c_values::errors::{number_of_result, refusal_number};
use c_values::text::put_arcs;
use c_values::time::{DmTime, read_fields};
use c_values::values::{check_text, read_boolean, write};
use der_base::error::BerError;
use der_base::header::Tag;
use der_base::rules::Rules;
use der_values::{ObjectIdentifier, read_i64, read_u64};

/// Reads an INTEGER from -2^63 to 2^63-1.
#[unsafe(no_mangle)]
pub extern "C" fn dm_read_i64(content: &[u8], value: &mut i64) -> u32
    ensures { Returns (AnswersSigned 64 (integer content.now)) value.old value.new result }
{
    write(read_i64(Rules::Ber, content), value)
}

/// Reads an INTEGER from 0 to 2^64-1.
#[unsafe(no_mangle)]
pub extern "C" fn dm_read_u64(content: &[u8], value: &mut u64) -> u32
    ensures { Returns (AnswersUnsigned 64 (integer content.now)) value.old value.new result }
{
    write(read_u64(Rules::Ber, content), value)
}

/// Reads a BOOLEAN as 0 or 1.
#[unsafe(no_mangle)]
pub extern "C" fn dm_read_bool(content: &[u8], value: &mut u8) -> u32
    ensures { Returns (AnswersBoolean content.now) value.old value.new result }
{
    write(read_boolean(content), value)
}

/// Writes the arcs of an OBJECT IDENTIFIER in dotted form, and the length of that text. Each subidentifier is below
/// 2^128.
#[unsafe(no_mangle)]
pub extern "C" fn dm_read_oid(content: &[u8], text: &mut [u8], needed: &mut usize) -> u32
    ensures { ReturnsText (option_map dotted (u128_arcs false content.now)) text.old text.new
        needed.old needed.new result }
{
    let identifier = ObjectIdentifier::new(content);
    match identifier.u128_arcs() {
        Some(arcs) => {
            *needed = put_arcs(text, 0, arcs);
            0
        }
        None => refusal_number(BerError::BerValueError),
    }
}

/// Returns 0 if the octets are a string of the type with this tag number, else the number of the error.
#[unsafe(no_mangle)]
pub extern "C" fn dm_check_text(number: u32, content: &[u8]) -> u32
    ensures { (found : Result (Unit {0}) BerError) × AnswersText number content.now found
        × (result ≡ number_of_result found) }
{
    number_of_result(check_text(Tag(number), content))
}

/// Reads the fields of a UTCTime (23) or GeneralizedTime (24).
#[unsafe(no_mangle)]
pub extern "C" fn dm_read_time(number: u32, content: &[u8], time: &mut DmTime) -> u32
    ensures { Returns (AnswersTime number content.now) time.old time.new result }
{
    write(read_fields(Tag(number), content), time)
}
