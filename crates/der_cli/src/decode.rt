//! The octets of an input in any form.
ghost use Rattle.std.specs.Prelude.{◌≡◌, ◌≢◌, ◌⊎◌, ◌<◌, ℕ, IfErr, IfOk, IfSome, IsErrAnd, List, MatchOption, Ok};
ghost use Rattle.der_input.specs.Blocks.{SpellsLines, lines_of};
ghost use Rattle.der_input.specs.declared.error.FormError.{FormError};
ghost use Rattle.der_input.specs.declared.form.Form.{Form};
ghost use Rattle.der_cli.specs.Inputs.{AreUndecoded, Decodes, FailsAtBlock, IsDecoded, IsUndecoded, JoinsBlocks};
ghost use Rattle.der_cli.specs.Inputs.{Spells};

use crate::run::form_in;
use der_actions::label::shown_label;
use der_actions::origin::{BlockName, Origin};
use der_actions::report::Undecoded;
use der_input::{Block, Form, FormError, decode_base64, decode_hex, next_block};
use std::alloc::Global;
use std::io;
use std::io::{ErrorKind, Write};

/// The octets of an input. Those of PEM blocks follow one another. None if it can't be decoded, which is reported.
pub(crate) fn octets_in<X: Write>(
    alloc: Global,
    asked: Option<Form>,
    origin: Origin<'_>,
    input: &[u8],
    err: &mut X,
) -> io::Result<Option<Vec<u8>>>
    ensures { IfOk result (λ found. MatchOption found (IsUndecoded asked input.now)
        (λ octets. IsDecoded asked input.now octets.items)) }
{
    match form_in(asked, input) {
        Ok(Form::Pem) => octets_of_blocks(alloc, origin, input, err),
        Ok(form) => octets_or_report(asked, origin, decoded(alloc, form, input), err),
        Err(e) => octets_or_report(asked, origin, Err(e), err),
    }
}

/// The octets of an input in a form that has no blocks.
fn decoded(alloc: Global, form: Form, input: &[u8]) -> Result<Vec<u8>, FormError>
    ensures ok { form ≢ Form.Pem → IfOk result (λ octets. Decodes form input.now octets.items) }
    ensures err { form ≢ Form.Pem
        → IfErr result (λ e. (e ≡ FormError.OutOfMemory) ⊎ ((w : List ℕ) → Spells form input.now w → ⊥)) }
{
    match form {
        Form::Hex => decode_hex(alloc, input),
        Form::Base64 => decode_base64(alloc, input),
        Form::Der | Form::Pem => match Vec::from_slice(alloc, input) {
            Ok(octets) => Ok(octets),
            Err(_) => Err(FormError::OutOfMemory),
        },
    }
}

/// Octets that were decoded. None if they weren't, which is reported.
fn octets_or_report<X: Write>(
    asked: Option<Form>,
    origin: Origin<'_>,
    decoded: Result<Vec<u8>, FormError>,
    err: &mut X,
) -> io::Result<Option<Vec<u8>>>
    ensures { IfOk result (λ found. MatchOption found (IsErrAnd decoded (λ e. e ≢ FormError.OutOfMemory))
        (λ octets. decoded ≡ Ok octets)) }
{
    match decoded {
        Ok(octets) => Ok(Some(octets)),
        Err(FormError::OutOfMemory) => Err(io::Error::from(ErrorKind::OutOfMemory)),
        Err(e) => {
            let why = Undecoded {
                origin,
                error: e,
                is_detected: asked.is_none(),
            };
            writeln!(err, "der: {why}")?;
            Ok(None)
        }
    }
}

/// The octets of all blocks of a text. None if one can't be decoded, which is reported.
fn octets_of_blocks<X: Write>(
    alloc: Global,
    origin: Origin<'_>,
    text: &[u8],
    err: &mut X,
) -> io::Result<Option<Vec<u8>>>
    ensures { IfOk result (λ found. MatchOption found (FailsAtBlock text.now)
        (λ octets. (n : ℕ) × (0 < n) × JoinsBlocks n text.now octets.items)) }
{
    let mut octets = Vec::new(alloc);
    let mut rest = text;
    // A block has at least one octet, so the loop ends at the end of the text.
    for before in 0..=text.len() {
        match next_block(rest) {
            Ok(Some((block, after))) => {
                let Some(decoded) = octets_of_block(alloc, origin, before, &block, err)? else {
                    return Ok(None);
                };
                octets.extend_from_slice(&decoded)?;
                rest = after;
            }
            Ok(None) if before > 0 => return Ok(Some(octets)),
            Ok(None) => return report_nothing(origin, FormError::NoBlock, err),
            Err(e) => return report_nothing(origin, e, err),
        }
    }
    Ok(None)
}

/// Reports why there are no octets.
fn report_nothing<X: Write>(
    origin: Origin<'_>,
    error: FormError,
    err: &mut X,
) -> io::Result<Option<Vec<u8>>>
    ensures { IfOk result (λ found. IfSome found (λ _. ⊥)) }
{
    octets_or_report(Some(Form::Pem), origin, Err(error), err)
}

/// The octets of a block with this many blocks before it. None if it can't be decoded, which is reported.
fn octets_of_block<'x, X: Write>(
    alloc: Global,
    origin: Origin<'x>,
    before: usize,
    block: &Block<'x>,
    err: &mut X,
) -> io::Result<Option<Vec<u8>>>
    ensures { IfOk result (λ found. MatchOption found (AreUndecoded (lines_of block.now))
        (λ octets. SpellsLines (lines_of block.now) octets.items)) }
{
    let text = shown_label(alloc, block.label)?;
    let name = BlockName {
        number: before.saturating_add(1),
        label: block.label,
        shown: text.as_str(),
    };
    let origin = Origin {
        name: origin.name,
        block: Some(name),
    };
    octets_or_report(Some(Form::Pem), origin, block.decode(alloc), err)
}
