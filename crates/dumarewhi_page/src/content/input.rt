//! The form of an input, and its octets.
ghost use Rattle.std.specs.Prelude.{◌≡◌, length};
ghost use Rattle.der_input.specs.Blocks.{label_of};
ghost use Rattle.dumarewhi_page.specs.Content.Inputs.{Answers, AnswersBlock, NumbersForm, SkipsBlock};
ghost use Rattle.dumarewhi_page.specs.Content.Inputs.{WritesBlock, error_number, form_number};

use der_input::{Block, Form, FormError, first_label};

/// A PEM block in a text.
#[repr(C)]
#[derive(Clone, Copy)]
pub struct PageBlock<'a> {
    /// The label; empty if there is none.
    pub label: &'a [u8],
    /// The text after the block, or after the start of a broken block.
    pub rest: &'a [u8],
    /// The number of its octets.
    pub size: usize,
}

/// The number of a form, or of an error.
pub fn number_of(found: Result<Form, FormError>) -> u32
    ensures { NumbersForm found result }
{
    match found {
        Ok(form) => form_number(form),
        Err(e) => error_number(e),
    }
}

/// Writes the block that was found, or the error.
pub fn put_block<'a>(
    found: Result<Option<(Block<'a>, &'a [u8])>, FormError>,
    text: &'a [u8],
    room: &mut [u8],
    octets: &mut [u8],
    block: &mut PageBlock<'a>,
) -> u32
    ensures { AnswersBlock text.now found.entry (length room.old) octets.new block.new result }
{
    match found {
        Ok(Some((found, rest))) => {
            block.rest = rest;
            write_block(found, room, octets, block)
        }
        Ok(None) => error_number(FormError::NoBlock),
        Err(e) => {
            write_broken(text, block);
            error_number(e)
        }
    }
}

/// Writes the label and the octets of a block.
fn write_block<'a>(
    found: Block<'a>,
    room: &mut [u8],
    octets: &mut [u8],
    block: &mut PageBlock<'a>,
) -> u32
    ensures label { block.new.label.now ≡ label_of found.entry }
    ensures rest { block.new.rest ≡ block.old.rest }
    ensures octets { WritesBlock found.entry (length room.old) octets.new block.new result }
{
    block.label = found.label;
    answer(found.decode_into(room, octets), &mut block.size)
}

/// Writes the label of a broken block, and the text after its start.
fn write_broken<'a>(text: &'a [u8], block: &mut PageBlock<'a>)
    ensures { SkipsBlock text.now block.new }
{
    block.size = 0;
    match first_label(text) {
        Some((label, after)) => {
            block.label = label;
            block.rest = after;
        }
        None => {
            block.label = &[];
            block.rest = &[];
        }
    }
}

/// Writes a size, and returns 0 or the number of an error.
pub fn answer(found: Result<usize, FormError>, size: &mut usize) -> u32
    ensures { Answers found size.new result }
{
    match found {
        Ok(number) => {
            *size = number;
            0
        }
        Err(e) => {
            *size = 0;
            error_number(e)
        }
    }
}

fn form_number(form: Form) -> u32
    ensures { result ≡ form_number form }
{
    match form {
        Form::Der => 0,
        Form::Pem => 1,
        Form::Hex => 2,
        Form::Base64 => 3,
    }
}

fn error_number(e: FormError) -> u32
    ensures { result ≡ error_number e }
{
    match e {
        FormError::LooksLike(_) => 10,
        FormError::Hex => 11,
        FormError::Base64(_) => 12,
        FormError::NoBlock => 13,
        FormError::NoEnd => 14,
        FormError::LabelsDiffer => 15,
        FormError::Encrypted => 16,
        FormError::OutOfMemory => 17,
    }
}
