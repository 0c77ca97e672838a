//! The lines of an input that has a known type. A secret value isn't written. Certificates, CRLs and certification
//! requests are written as summaries.
ghost use Rattle.std.specs.Prelude.{◌≡◌, ◌++◌, IfOk, List, OnOk, ℕ};
ghost use Rattle.text_json.specs.Fields.Fields.{label_text};
ghost use Rattle.der_print.specs.Lines.{IsFieldLine};
ghost use Rattle.der_print.specs.Texts.{content_of};
ghost use Rattle.der_schema.specs.Known.{IsOfType, all_extras};
ghost use Rattle.der_schema.specs.Meaning.{root_of};
ghost use Rattle.der_schema.specs.Steps.{label_of};
ghost use Rattle.der_elements.specs.Visits.{Visited, Visits};
ghost use Rattle.der_elements.specs.Walked.{visited_of};
ghost use Rattle.der_show.specs.FieldLines.{AddsAll, AddsShown, AddsWords};
ghost use Rattle.der_show.specs.Leaves.{fields_style, leaf_line};

use crate::known::Known;
use crate::manner::Manner;
use crate::text::summary_of;
use der_base::rules::Rules;
use der_elements::{Element, Walk};
use der_print::{Limit, Room, Style, write_field_line, write_outline};
use der_schema::{Name, Namer, Schema};
use std::alloc::{AllocError, Global};
use text_json::fields::{SECRET, is_secret};

/// Only the first octets or characters of a long value are written.
const STYLE: Style = Style {
    limit: Limit::Front,
    colours: false,
};

/// The text in place of the value of an element that is summarized.
const IN_WORDS: &str = " (in words below)";

/// What is written about an input that has a type.
#[derive(Drop)]
pub(crate) struct Written {
    /// The lines of the elements.
    pub(crate) lines: Vec<u8>,
    /// The summaries of the certificates, CRLs and certification requests among the elements.
    pub(crate) words: Vec<u8>,
    /// Whether these keep all rules of RFC 5280 beyond its ASN.1.
    pub(crate) keeps_rules: bool,
}

/// Adds the lines and the summaries of the elements of an input that has this type by BER.
pub(crate) fn with_lines(
    alloc: Global,
    front: Written,
    octets: &[u8],
    schema: Schema<'_>,
    now: Option<u64>,
) -> Result<Written, AllocError>
    ensures { IsOfType (root_of schema.entry) Rules.Ber octets.now → IfOk result (λ written.
        (vs : List Visited) × Visits all_extras Rules.Ber 101 0 0 octets.now vs
        × AddsAll now schema.entry octets.now vs front written) }
{
    let mut written = front;
    let mut walk = Walk::new(octets, Rules::Ber, true).keeping_values();
    let mut namer = Namer::new(octets, schema);
    let mut room = Room::new(alloc);
    let mut leaf = None;
    'elements: loop {
        match walk.next_element() {
            Ok(Some(element)) => {
                let name = namer.name_of(&element);
                let field = text_of(name);
                let is_secret = is_secret(name, element.holds.is_some());
                let manner = Manner::of(leaf, octets, &element, is_secret);
                leaf = manner.leaf_past(leaf, element.depth);
                add_element(
                    &mut written,
                    alloc,
                    &mut room,
                    &element,
                    field,
                    &manner,
                    now,
                )?;
            }
            Ok(None) => return Ok(written),
            // An input that has a type is valid, so the walk has no error.
            Err(_) => return Ok(written),
        }
    }
}

/// The text of a name. Empty if the element isn't in the type.
fn text_of(name: Option<Name>) -> &'static str
    ensures { result.now ≡ label_text (label_of name) }
{
    match name {
        Some(name) => name.text,
        None => "",
    }
}

/// Adds what is written about an element that is shown in this manner.
fn add_element(
    written: &mut Written,
    alloc: Global,
    room: &mut Room,
    element: &Element<'_>,
    field: &str,
    manner: &Manner<'_>,
    now: Option<u64>,
) -> Result<(), AllocError>
    ensures { OnOk result (AddsShown now manner.now field.now element.now written.old written.new) }
{
    match manner {
        Manner::InLeaf => Ok(()),
        Manner::Secret => add_leaf_line(&mut written.lines, room, element, field, SECRET),
        Manner::InWords(octets, known) => {
            add_leaf_line(&mut written.lines, room, element, field, IN_WORDS)?;
            add_words(written, alloc, octets, known, now)
        }
        Manner::Plain => add_plain_line(&mut written.lines, room, element, field),
    }
}

/// Adds the line of an element, with its value.
fn add_plain_line(
    text: &mut Vec<u8>,
    room: &mut Room,
    element: &Element<'_>,
    field: &str,
) -> Result<(), AllocError>
    ensures { OnOk result ((line : List ℕ)
        × IsFieldLine field.now fields_style (visited_of element.now) (content_of element.now) line
        × (text.new.items ≡ text.old.items ++ line)) }
{
    match write_field_line(text, room, element, field, STYLE) {
        Ok(()) => Ok(()),
        Err(_) => Err(AllocError),
    }
}

/// Adds the line of an element with this text in place of its value.
fn add_leaf_line(
    text: &mut Vec<u8>,
    room: &mut Room,
    element: &Element<'_>,
    field: &str,
    ending: &str,
) -> Result<(), AllocError>
    ensures { OnOk result
        (text.new.items ≡ text.old.items ++ leaf_line ending.now field.now (visited_of element.now)) }
{
    match write_outline(text, room, element, field, ending, STYLE) {
        Ok(()) => Ok(()),
        Err(_) => Err(AllocError),
    }
}

/// Adds the summary of a known structure in these octets.
fn add_words(
    written: &mut Written,
    alloc: Global,
    octets: &[u8],
    known: &Known<'_>,
    now: Option<u64>,
) -> Result<(), AllocError>
    ensures { OnOk result (AddsWords now octets.now known.now written.old written.new) }
{
    let summary = summary_of(alloc, octets, known, now)?;
    written.words.extend_from_slice(&summary.text)?;
    written.keeps_rules = written.keeps_rules && summary.keeps_rules;
    Ok(())
}
