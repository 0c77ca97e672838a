//! Calls that write the texts of errors, faults and tags.
ghost use Rattle.std.specs.Prelude.{List, ℕ, ◌++◌, codes};
ghost use Rattle.c_values.specs.FaultTexts.{found_text};
ghost use Rattle.c_values.specs.Texts.{PutsText};

use c_values::error_text::{
    PEM_INPUT, is_pem, words_of, words_of_error, words_of_tag, words_with_tag,
};
use c_values::fault::DmFault;
use c_values::state::class_of;
use c_values::text::put_text;

/// Writes the text of an error. Returns its length.
#[unsafe(no_mangle)]
pub extern "C" fn dm_error_text(error: u32, text: &mut [u8]) -> usize
    ensures { (words : List ℕ) × PutsText text.old 0 words text.new result }
{
    put_text(text, 0, words_of_error(error).as_str().as_bytes())
}

/// Writes the text of a fault: its field, its offset and its error. Returns its length.
#[unsafe(no_mangle)]
pub extern "C" fn dm_fault_text(fault: &DmFault, text: &mut [u8]) -> usize
    ensures { (words : List ℕ) × PutsText text.old 0 words text.new result }
{
    put_text(text, 0, words_of(fault).as_str().as_bytes())
}

/// Writes the caller's name, a space and the text of a fault. Returns the length.
#[unsafe(no_mangle)]
pub extern "C" fn dm_named_fault_text(fault: &DmFault, name: &[u8], text: &mut [u8]) -> usize
    ensures { (words : List ℕ) × PutsText text.old 0 (name.now ++ codes " " ++ words) text.new result }
{
    let words = words_of(fault);
    let end = put_text(text, 0, name);
    let end = put_text(text, end, b" ");
    put_text(text, end, words.as_str().as_bytes())
}

/// Writes the text of a fault of this input. If a tag or a class is unexpected, the tag that was found follows: ",
/// found [APPLICATION 10]". If the input is PEM, the text says so instead. Returns the length.
#[unsafe(no_mangle)]
pub extern "C" fn dm_found_text(fault: &DmFault, input: &[u8], text: &mut [u8]) -> usize
    ensures { (words : List ℕ) × PutsText text.old 0 (found_text fault.now input.now words) text.new result }
{
    if is_pem(fault, input) {
        return put_text(text, 0, PEM_INPUT.as_bytes());
    }
    let whole = words_with_tag(fault, input);
    put_text(text, 0, whole.as_str().as_bytes())
}

/// Writes the name of a universal type, or any other tag in the notation of ASN.1, such as [APPLICATION 10]. Returns
/// the length.
#[unsafe(no_mangle)]
pub extern "C" fn dm_tag_text(tag_class: u8, number: u32, text: &mut [u8]) -> usize
    ensures { (words : List ℕ) × PutsText text.old 0 words text.new result }
{
    let tag = words_of_tag(class_of(tag_class), number);
    put_text(text, 0, tag.as_str().as_bytes())
}
