//! The user's names of object identifiers, in the table of `--names`.
ghost use Rattle.std.specs.Prelude.{◌≡◌, [], IfOk, IsSomeAnd, MatchOption, None, Some, position, string_bytes, ℕ};
ghost use Rattle.oid_names.specs.OwnNames.{IsTable, entries_in, is_wrong, lines_in};

use crate::inputs::report_unread;
use der_actions::name::Name;
use oid_names::{NamesError, OwnNames};
use std::alloc::Global;
use std::io::{ErrorKind, Write};
use std::rt::Files;
use std::{fs, io};

/// The text of the table with this name. Empty if there is no name. None if it can't be read, which is reported.
pub(crate) fn table_text<R: Files + AllocGlobal, X: Write>(
    rt: &R,
    name: Option<&str>,
    err: &mut X,
) -> io::Result<Option<String>>
    ensures { name.entry ≡ None → IfOk result (λ text. IsSomeAnd text (λ t. string_bytes t ≡ [])) }
{
    let Some(name) = name else {
        return Ok(Some(String::new(rt.alloc())));
    };
    match fs::read_to_string(rt, name) {
        Ok(text) => Ok(Some(text)),
        Err(e) => {
            report_unread(name, &e, err)?;
            Ok(None)
        }
    }
}

/// The names in the text of a table. None if a line is wrong, which is reported with the name of the table.
pub(crate) fn names_in<'a, X: Write>(
    alloc: Global,
    name: Option<&str>,
    text: &'a str,
    err: &mut X,
) -> io::Result<Option<OwnNames<'a>>>
    ensures { IfOk result (λ found. MatchOption found
        ((before : ℕ) × (position is_wrong (lines_in text.now) ≡ Some before))
        (λ names. IsTable text.now (entries_in names))) }
{
    match OwnNames::read(alloc, text) {
        Ok(names) => Ok(Some(names)),
        Err(NamesError::OutOfMemory) => Err(io::Error::from(ErrorKind::OutOfMemory)),
        Err(e) => {
            writeln!(err, "der: {}: {e}", Name(name.unwrap_or("")))?;
            Ok(None)
        }
    }
}
