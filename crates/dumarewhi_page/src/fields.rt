//! The call that writes the type of an input and the field names of its elements.
use crate::content::fields::Fields;
use crate::content::room::put;

/// Writes the first known type that matches the input, and on a line each the field name of each element that
/// `page_list` lists, which may be empty. Writes nothing if no type matches. Returns the length of the text, as the
/// calls in `texts`.
#[unsafe(no_mangle)]
pub extern "C" fn page_fields(input: &[u8], text: &mut [u8]) -> usize {
    put(text, Fields { input })
}
