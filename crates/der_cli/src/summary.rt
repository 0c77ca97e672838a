//! The count of files that a check rejects.
ghost use Rattle.std.specs.Prelude.{◌≡◌, ◌&&◌, ◌<◌};
ghost use Rattle.der_cli.specs.Counts.{are_accepted, is_accepted, is_good};

use der_actions::options::{Naming, Options};
use der_elements::Rules;
use std::io::Write;
use std::{fmt, io};

/// What a check asks of files, such as `DER`, or `DER of Certificate`.
#[derive(Clone, Copy)]
struct Asked<'a> {
    rules: Rules,
    naming: Naming<'a>,
}

impl fmt::Display for Asked<'_> {
    fn fmt<W: fmt::Write>(&self, f: &mut fmt::Formatter<W>) -> fmt::Result {
        match self.rules {
            Rules::Ber => write!(f, "BER")?,
            Rules::Der => write!(f, "DER")?,
        }
        match self.naming {
            Naming::By(schema) => write!(f, " of {}", schema.name),
            Naming::Unnamed | Naming::ByFirst(_) => Ok(()),
        }
    }
}

/// What became of a file.
#[derive(Clone, Copy)]
pub(crate) enum Outcome {
    Accepted,
    Rejected,
    /// It can't be read.
    Unread,
}

/// The number of files, and how many of them were rejected or can't be read.
#[derive(Clone, Copy)]
pub(crate) struct Summary {
    files: usize,
    refused: usize,
    unread: usize,
    /// Whether all folders were read to their end and contain a file.
    is_whole: bool,
}

impl Summary {
    /// The count before the first file.
    pub(crate) fn new(is_whole: bool) -> Summary
        ensures { result ≡ record { files = 0; refused = 0; unread = 0; is_whole = is_whole } }
    {
        Summary {
            files: 0,
            refused: 0,
            unread: 0,
            is_whole,
        }
    }

    /// Counts a file.
    pub(crate) fn add(&mut self, outcome: Outcome)
        ensures counted { 0 < self.new.files }
        ensures accepted { are_accepted self.new ≡ (are_accepted self.old && is_accepted outcome) }
        ensures whole { self.new.is_whole ≡ self.old.is_whole }
    {
        self.files = self.files.saturating_add(1);
        match outcome {
            Outcome::Accepted => {}
            Outcome::Rejected => self.refused = self.refused.saturating_add(1),
            Outcome::Unread => self.unread = self.unread.saturating_add(1),
        }
    }

    /// Whether there is a file, and all were accepted.
    pub(crate) fn is_good(&self) -> bool
        ensures { result ≡ is_good self.now }
    {
        self.files > 0 && self.refused == 0 && self.unread == 0 && self.is_whole
    }

    /// Writes the count, such as `12 files, 2 aren't DER`.
    pub(crate) fn write<W: Write>(&self, options: &Options<'_>, out: &mut W) -> io::Result<()> {
        let asked = Asked {
            rules: options.rules,
            naming: options.naming,
        };
        match self.files {
            1 => write!(out, "1 file")?,
            files => write!(out, "{files} files")?,
        }
        match self.refused {
            0 if self.is_good() && self.files == 1 => write!(out, ", it is {asked}")?,
            0 if self.is_good() => write!(out, ", all are {asked}")?,
            0 => {}
            1 => write!(out, ", 1 isn't {asked}")?,
            refused => write!(out, ", {refused} aren't {asked}")?,
        }
        if self.unread > 0 {
            write!(out, ", {} can't be read", self.unread)?;
        }
        if !self.is_whole {
            write!(out, ", some folders have no file or can't be read")?;
        }
        writeln!(out, "")
    }
}
