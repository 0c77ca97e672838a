//! The paths and types that a user may have meant.
use crate::fields::Fields;
use crate::naming::schema_of;
use crate::options::Options;
use der_elements::{Element, Walk};
use der_known::KnownTypes;
use der_print::octets_or_none;
use oid_names::name_among;
use std::alloc::{AllocError, Global};
use std::io::Write;
use std::{fmt, io};
use strsim::jaro;

/// The most paths of a hint.
const MOST: usize = 3;

/// The similarity above which a name is suggested, as clap does it for options.
const SIMILARITY: f64 = 0.7;

/// The universal number of an OBJECT IDENTIFIER.
const OBJECT_IDENTIFIER: u32 = 6;

/// The paths of the first elements that a path may mean, by the names in it. The last name is that of the field, or of
/// an object identifier: then the element is meant that the identifier tells about.
pub(crate) fn likely_paths(
    alloc: Global,
    options: &Options<'_>,
    octets: &[u8],
    path: &str,
) -> io::Result<Vec<String>> {
    let mut walk = Walk::new(octets, options.rules, options.enters_strings).keeping_values();
    let mut fields = Fields::new(octets, schema_of(options.naming, options.rules, octets));
    let mut likely = Vec::new(alloc);
    'elements: while likely.len() < MOST {
        let Ok(Some(element)) = walk.next_element() else {
            return Ok(likely);
        };
        fields.field_of(&element);
        let meant = meant_path(alloc, options, path, &element, &fields)?;
        push_new(meant, &mut likely)?;
    }
    Ok(likely)
}

/// Adds a path, unless it is the last one already, as of an explicit tag and of what is inside it.
fn push_new(path: Option<String>, paths: &mut Vec<String>) -> Result<(), AllocError> {
    match (path, paths.last()) {
        (Some(path), Some(last)) if path.as_str() == last.as_str() => Ok(()),
        (Some(path), _) => {
            paths.push(path)?;
            Ok(())
        }
        (None, _) => Ok(()),
    }
}

/// The path to the element visited last, or to the one around it, if `path` may mean it.
fn meant_path(
    alloc: Global,
    options: &Options<'_>,
    path: &str,
    element: &Element<'_>,
    fields: &Fields<'_>,
) -> Result<Option<String>, AllocError> {
    let Some(named) = fields.path(alloc)? else {
        return Ok(None);
    };
    let (around, last) = split_last(named.as_str());
    if is_meant(path, around, last) {
        return Ok(Some(named));
    }
    if !element.is_universal(OBJECT_IDENTIFIER) {
        return Ok(None);
    }
    match name_among(options.own_names, octets_or_none(element.content)) {
        Some(name) if is_meant(path, around, name) => Ok(Some(described(alloc, named.as_str())?)),
        _ => Ok(None),
    }
}

/// The path to what an object identifier with this path tells about: the element around it, unless it is one of a list.
fn described(alloc: Global, path: &str) -> Result<String, AllocError> {
    let (around, last) = split_last(path);
    if around.is_empty() || last.ends_with(']') {
        return format!(in alloc; "{path}");
    }
    format!(in alloc; "{around}")
}

/// Whether a path may mean the element with this name and this path to the one around it.
fn is_meant(path: &str, around: &str, name: &str) -> bool {
    let (names, last) = split_last(path);
    name.eq_ignore_ascii_case(last) && has_steps(around, names)
}

/// The path without its last step, and that step.
fn split_last(path: &str) -> (&str, &str) {
    path.rsplit_once('.').unwrap_or(("", path))
}

/// Whether a path has each of these steps.
fn has_steps(path: &str, steps: &str) -> bool {
    for step in steps.split('.') {
        if !step.is_empty() && !has_step(path, step) {
            return false;
        }
    }
    true
}

/// Whether a path has a step with this name.
fn has_step(path: &str, name: &str) -> bool {
    for step in path.split('.') {
        if is_step(step, name) {
            return true;
        }
    }
    false
}

/// Whether a step has this name, in any case of its letters, and with or without its index.
fn is_step(step: &str, name: &str) -> bool {
    let (without_index, _) = step.split_once('[').unwrap_or((step, ""));
    step.eq_ignore_ascii_case(name) || without_index.eq_ignore_ascii_case(name)
}

/// The name of the known type that is most similar to a word, if one is similar.
pub(crate) fn likely_type(
    alloc: Global,
    word: &str,
    types: &KnownTypes,
) -> Result<Option<&'static str>, AllocError> {
    let mut likely = None;
    let mut most = SIMILARITY;
    for known in types.known() {
        let similarity = jaro(alloc, word, known.name)?;
        if similarity > most {
            most = similarity;
            likely = Some(known.name);
        }
    }
    Ok(likely)
}

/// Writes paths or names as a question.
pub(crate) fn write_hint<T: fmt::Display, X: Write>(names: &[T], err: &mut X) -> io::Result<()> {
    for (index, name) in names.iter().enumerate() {
        let before = if index == 0 { "; did you mean" } else { " or" };
        write!(err, "{before} {name}")?;
    }
    if !names.is_empty() {
        write!(err, "?")?;
    }
    Ok(())
}
