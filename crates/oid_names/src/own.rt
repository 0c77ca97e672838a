//! Names of object identifiers from the caller's own text.
ghost use Rattle.std.specs.Prelude.{◌≡◌, ◌⊎◌, ◌++◌, IfErr, MatchResult, OnOk, Some, None, false, true, map};
ghost use Rattle.std.specs.Option.{option_map};
ghost use Rattle.oid_names.specs.OwnNames.{IsTable, IsWrongTable, IsNameAmong, entries_in, entry_in, entry_of};
ghost use Rattle.oid_names.specs.OwnNames.{is_passed_over, is_wrong, name_in, on_line};

use crate::name_of;
use der_base::error::OidParseError;
use der_base::oid::Oid;
use std::alloc::Global;
use std::fmt;

/// Why a text can't be read.
#[derive(Clone, Copy, Debug, PartialEq)]
pub enum NamesError {
    /// A line that isn't an identifier, a space and a name, by the number of lines before it.
    WrongLine(usize),
    /// An allocation failed.
    OutOfMemory,
}

impl fmt::Display for NamesError {
    fn fmt<W: fmt::Write>(&self, f: &mut fmt::Formatter<W>) -> fmt::Result {
        match self {
            NamesError::WrongLine(before) => {
                let number = before.saturating_add(1);
                write!(f, "line {number} isn't an identifier, a space and a name")
            }
            NamesError::OutOfMemory => f.write_str("out of memory"),
        }
    }
}

/// Why a line can't be read.
#[derive(Clone, Copy)]
enum LineError {
    Wrong,
    OutOfMemory,
}

/// An identifier and its name.
#[derive(Drop)]
pub struct Entry<'a> {
    pub(crate) identifier: Oid<'a>,
    pub(crate) name: &'a str,
}

/// Names of identifiers, read from the caller's own text.
#[derive(Drop)]
pub struct OwnNames<'a> {
    entries: Vec<Entry<'a>>,
}

impl<'a> OwnNames<'a> {
    /// Reads lines of a dotted identifier, a space and a name, such as `1.3.6.1.4.1.99999.1 ours`. Skips blank lines
    /// and lines that begin with `#`. The error is the first other line.
    pub fn read(alloc: Global, text: &'a str) -> Result<OwnNames<'a>, NamesError>
        ensures { MatchResult result (λ names. IsTable text.now (entries_in names)) (IsWrongTable text.now) }
    {
        let mut entries = Vec::new(alloc);
        let mut before: usize = 0;
        'lines: for line in text.split('\n') {
            match take_line(alloc, &mut entries, line) {
                Ok(()) => {}
                Err(LineError::Wrong) => return Err(NamesError::WrongLine(before)),
                Err(LineError::OutOfMemory) => return Err(NamesError::OutOfMemory),
            }
            before = before.saturating_add(1);
        }
        Ok(OwnNames { entries })
    }

    /// The name of the identifier with these content octets (X.690 8.19), on the first line that has it.
    pub fn name_of(&self, octets: &[u8]) -> Option<&'a str>
        ensures { option_map (λ name. name.now) result ≡ name_in (entries_in self.now) octets.now }
    {
        let entry = self
            .entries
            .iter()
            .find(|entry| entry.identifier.as_bytes() == octets)?;
        Some(entry.name)
    }
}

/// The name of the identifier with these content octets: from `own`, if that has it, else from the built-in table.
pub fn name_among<'a>(own: Option<&'a OwnNames<'a>>, octets: &[u8]) -> Option<&'a str>
    ensures { IsNameAmong (option_map (λ names. entries_in names.now) own.entry) octets.now
        (option_map (λ name. name.now) result) }
{
    match own {
        Some(names) => match names.name_of(octets) {
            Some(name) => Some(name),
            None => name_of(octets),
        },
        None => name_of(octets),
    }
}

/// Adds the entry of a line, if it has one.
fn take_line<'a>(
    alloc: Global,
    entries: &mut Vec<Entry<'a>>,
    line: &'a str,
) -> Result<(), LineError>
    ensures ok { OnOk result ((map entry_in entries.new.items ≡ map entry_in entries.old.items ++ on_line line.now)
        × (is_wrong line.now ≡ false)) }
    ensures err { IfErr result (λ e. (e ≡ LineError.OutOfMemory)
        ⊎ ((e ≡ LineError.Wrong) × (is_wrong line.now ≡ true))) }
{
    let content = line.trim();
    if is_passed_over(content) {
        return Ok(());
    }
    let entry = read_entry(alloc, content)?;
    match entries.push(entry) {
        Ok(()) => Ok(()),
        Err(_) => Err(LineError::OutOfMemory),
    }
}

/// Returns whether a line has no entry.
fn is_passed_over(content: &str) -> bool
    ensures { result ≡ is_passed_over content.now }
{
    content.is_empty() || content.as_bytes()[0] == b'#'
}

/// The identifier and the name on a line.
fn read_entry<'a>(alloc: Global, content: &'a str) -> Result<Entry<'a>, LineError>
    ensures { MatchResult result
        (λ entry. entry_of content.now ≡ Some (entry_in entry))
        (λ e. (e ≡ LineError.OutOfMemory) ⊎ ((e ≡ LineError.Wrong) × (entry_of content.now ≡ None))) }
{
    let Some((dotted, rest)) = content.split_once(' ') else {
        return Err(LineError::Wrong);
    };
    let name = rest.trim();
    if name.is_empty() {
        return Err(LineError::Wrong);
    }
    match Oid::from_dotted(alloc, dotted) {
        Ok(identifier) => Ok(Entry { identifier, name }),
        Err(OidParseError::OutOfMemory) => Err(LineError::OutOfMemory),
        Err(_) => Err(LineError::Wrong),
    }
}
