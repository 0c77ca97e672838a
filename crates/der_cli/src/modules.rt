//! Modules of ASN.1 that the user names.
ghost use Rattle.std.specs.Prelude.{◌≡◌, IfOk, List, None, Some, codes, option_map, ℕ};
ghost use Rattle.clap.specs.Words.{first_of, found_of, rows_of};

use crate::arguments::word_of;
use crate::inputs::{DASH, read_file, report_unread, shown};
use asn1_types::{Problem, Types, TypesError};
use clap::ArgMatches;
use der_actions::name::Name;
use der_actions::naming::naming_of;
use der_actions::options::{Action, Naming};
use der_actions::report::report_unknown_type;
use der_known::KnownTypes;
use std::alloc::{AllocError, Global};
use std::io;
use std::io::{ErrorKind, Read, Write};
use std::rt::Files;

/// The naming that the arguments ask for: by a type of the modules of `--asn1`, or else as `naming_of` has it. None if
/// the modules can't be read, or no type has the name, which is reported.
pub(crate) fn asked_naming<'a, R: Files + AllocGlobal, X: Write>(
    rt: &R,
    action: Action,
    matches: &ArgMatches<'_>,
    types: &'a KnownTypes,
    err: &mut X,
) -> io::Result<Option<Naming<'a>>>
    ensures { IfOk result (λ naming. naming ≡ None
        → (word : List ℕ) × (first_of (codes "as") (rows_of (found_of matches.now)) ≡ Some word)) }
{
    let word = word_of(matches, "as");
    match (word, matches.get_strs("asn1")) {
        (Some(word), Some(names)) => naming_in(rt, names, word, err),
        _ => known_naming(rt.alloc(), action, word, types, err),
    }
}

/// The naming by the type with this name in the modules of these files.
fn naming_in<'a, R: Files + AllocGlobal, X: Write>(
    rt: &R,
    names: &[&str],
    word: &str,
    err: &mut X,
) -> io::Result<Option<Naming<'a>>> {
    let Some(types) = types_in(rt, names, &mut io::empty(), err)? else {
        return Ok(None);
    };
    match types.type_named(word) {
        Some(schema) => Ok(Some(Naming::By(schema))),
        None => {
            writeln!(err, "der: no module of --asn1 defines {}", Name(word))?;
            Ok(None)
        }
    }
}

/// The naming by the known types. None if no type has the name, which is reported.
fn known_naming<'a, X: Write>(
    alloc: Global,
    action: Action,
    word: Option<&str>,
    types: &'a KnownTypes,
    err: &mut X,
) -> io::Result<Option<Naming<'a>>>
    ensures { IfOk result (λ naming. naming ≡ None
        → (text : List ℕ) × (option_map (λ w. w.now) word.entry ≡ Some text)) }
{
    let naming = naming_of(action, word, types);
    if naming.is_none() {
        report_unknown_type(alloc, word, types, err)?;
    }
    Ok(naming)
}

/// Prints the types that the modules in files define. Returns whether they were read.
pub(crate) fn run_modules<R: Files + AllocGlobal, I: Read, W: Write, X: Write>(
    rt: &R,
    matches: &ArgMatches<'_>,
    input: &mut I,
    out: &mut W,
    err: &mut X,
) -> io::Result<bool> {
    let names = matches.get_strs("file").unwrap_or(&[DASH]);
    match types_in(rt, names, input, err)? {
        Some(types) => {
            write!(out, "{types}")?;
            Ok(true)
        }
        None => Ok(false),
    }
}

/// The types of the modules in these files. None if a file can't be read or isn't a module, which is reported.
fn types_in<R: Files + AllocGlobal, I: Read, X: Write>(
    rt: &R,
    names: &[&str],
    input: &mut I,
    err: &mut X,
) -> io::Result<Option<Types>> {
    let Some(texts) = texts_in(rt, names, input, err)? else {
        return Ok(None);
    };
    match types_of(rt.alloc(), &texts)? {
        Ok(types) => Ok(Some(types)),
        Err(e) => {
            report_module(names, e, err)?;
            Ok(None)
        }
    }
}

/// The texts of these files. None if one can't be read, which is reported.
fn texts_in<R: Files + AllocGlobal, I: Read, X: Write>(
    rt: &R,
    names: &[&str],
    input: &mut I,
    err: &mut X,
) -> io::Result<Option<Vec<Vec<u8>>>> {
    let mut texts = Vec::new(rt.alloc());
    for name in names {
        match read_file(rt, name, input) {
            Ok(text) => texts.push(text)?,
            Err(e) => {
                report_unread(name, &e, err)?;
                return Ok(None);
            }
        }
    }
    Ok(Some(texts))
}

/// The types that texts define.
fn types_of(alloc: Global, texts: &[Vec<u8>]) -> Result<Result<Types, TypesError>, AllocError> {
    let mut slices: Vec<&[u8]> = Vec::new(alloc);
    for text in texts {
        slices.push(text.as_slice())?;
    }
    Ok(Types::from_texts(alloc, &slices))
}

/// Reports what is wrong with a module.
fn report_module<X: Write>(names: &[&str], e: TypesError, err: &mut X) -> io::Result<()> {
    if e.problem == Problem::OutOfMemory {
        return Err(io::Error::from(ErrorKind::OutOfMemory));
    }
    let name = names.get(e.text).copied().unwrap_or("");
    writeln!(err, "der: {}: {e}", Name(shown(name)))
}
