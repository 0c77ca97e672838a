//! The pretty printer of objects.
ghost use Rattle.std.specs.Prelude.{◌≡◌, IfOk, OnErr, OnOk, true, false, [], ◌∷◌};
ghost use Rattle.der_object.specs.Printer.{IsPrinter, IsPrinterWith, flags_of, has_flag, with_flag, without_flag};
ghost use Rattle.der_object.specs.Printer.{increment_of, indent_of, next_indent, printed};
ghost use Rattle.der_object.specs.Writing.{IoWhereFaultsRose, Wrote};

use crate::object::BerObject;
use crate::text::{Layout, send_text};
use crate::writer::FaultWriter;
use der_base::error::GenError;
use std::alloc::{AllocError, Global};
use std::io::{ErrorKind, Write};
use std::{fmt, io, str};

/// What the printer shows in addition to contents.
#[derive(Clone, Copy, Debug, PartialEq)]
pub enum PrettyPrinterFlag {
    /// The items of lists.
    Recursive,
    /// The headers.
    ShowHeader,
}

/// A printer of an object, with its options.
#[derive(Drop)]
pub struct PrettyBer<'o, 'a> {
    obj: &'o BerObject<'a>,
    flags: Vec<PrettyPrinterFlag>,
    indent: usize,
    increment: usize,
}

impl<'a> BerObject<'a> {
    /// A printer of this object, with the items of lists and without headers. The text is indented by `indent` spaces,
    /// and the items of each list by `increment` more. Errors: `AllocError` if there is no memory for the flag.
    ///
    /// ```
    /// let printer = object.as_pretty(alloc, 0, 2)?;
    /// let text = format!(in alloc; "{printer:?}")?;
    /// ```
    pub fn as_pretty<'o>(
        &'o self,
        alloc: Global,
        indent: usize,
        increment: usize,
    ) -> Result<PrettyBer<'o, 'a>, AllocError>
        ensures { IfOk result (λ p. IsPrinter p self.now (PrettyPrinterFlag.Recursive ∷ []) indent increment) }
    {
        let mut flags = Vec::new(alloc);
        flags.push(PrettyPrinterFlag::Recursive)?;
        Ok(PrettyBer::new(self, flags, indent, increment))
    }
}

impl<'o, 'a> PrettyBer<'o, 'a> {
    /// A printer with this object and these options.
    pub fn new(
        obj: &'o BerObject<'a>,
        flags: Vec<PrettyPrinterFlag>,
        indent: usize,
        increment: usize,
    ) -> PrettyBer<'o, 'a>
        ensures { IsPrinter result obj.now flags.items indent increment }
    {
        PrettyBer {
            obj,
            flags,
            indent,
            increment,
        }
    }

    /// A printer of an object inside this one, with the same flags and the next indent, which is at most `usize::MAX`.
    /// Errors: `AllocError` if there is no memory for the flags.
    pub fn next_indent<'p>(
        &self,
        alloc: Global,
        obj: &'p BerObject<'a>,
    ) -> Result<PrettyBer<'p, 'a>, AllocError>
        ensures { IfOk result
            (λ p. IsPrinter p obj.now (flags_of self.now) (next_indent self.now) (increment_of self.now)) }
    {
        let mut flags = Vec::new(alloc);
        flags.extend_from_slice(&self.flags)?;
        let indent = self.indent.saturating_add(self.increment);
        Ok(PrettyBer::new(obj, flags, indent, self.increment))
    }

    /// Whether the flag is set.
    pub fn is_flag_set(&self, flag: PrettyPrinterFlag) -> bool
        ensures { result ≡ has_flag (flags_of self.now) flag }
    {
        self.flags.iter().any(|f| *f == flag)
    }

    /// Sets the flag, if it isn't set. Errors: `AllocError` if there is no memory for it; then nothing changes.
    pub fn set_flag(&mut self, flag: PrettyPrinterFlag) -> Result<(), AllocError>
        ensures ok { OnOk result (IsPrinterWith (with_flag (flags_of self.old) flag) self.old self.new) }
        ensures err { OnErr result (IsPrinterWith (flags_of self.old) self.old self.new) }
    {
        if !self.is_flag_set(flag) {
            self.flags.push(flag)?;
        }
        Ok(())
    }

    /// Removes the flag, however often it is there.
    pub fn unset_flag(&mut self, flag: PrettyPrinterFlag)
        ensures { IsPrinterWith (without_flag (flags_of self.old) flag) self.old self.new }
    {
        self.flags.retain(|f| *f != flag);
    }

    /// Writes the text. Errors: `Io` if a write failed. It doesn't allocate.
    pub fn write_text<W: Write>(&self, w: &mut FaultWriter<W>) -> Result<(), GenError>
        ensures text { Wrote W.contents w.old w.new result (printed self.now) }
        ensures io { IoWhereFaultsRose w.old w.new result }
    {
        let layout = Layout {
            recursive: self.is_flag_set(PrettyPrinterFlag::Recursive),
            headers: self.is_flag_set(PrettyPrinterFlag::ShowHeader),
            increment: self.increment,
        };
        send_text(w, self.obj, layout, self.indent)
    }
}

/// A writer of octets over the formatter of `Debug`.
#[derive(Drop)]
struct TextWriter<'f, F> {
    to: &'f mut F,
}

impl<'f, F: fmt::Write> Write for TextWriter<'f, F> {
    fn write(&mut self, octets: &[u8]) -> io::Result<usize> {
        let Ok(text) = str::from_utf8(octets) else {
            return Err(io::Error::from(ErrorKind::InvalidData));
        };
        match self.to.write_str(text) {
            Ok(()) => Ok(octets.len()),
            Err(_) => Err(io::Error::from(ErrorKind::Other)),
        }
    }

    fn flush(&mut self) -> io::Result<()> {
        Ok(())
    }
}

/// Writes the text of `write_text`.
impl fmt::Debug for PrettyBer<'_, '_> {
    fn fmt<W: fmt::Write>(&self, f: &mut fmt::Formatter<W>) -> fmt::Result {
        let mut w = FaultWriter::new(TextWriter { to: f });
        let written = self.write_text(&mut w);
        match written {
            Ok(()) => Ok(()),
            Err(_) => Err(fmt::Error),
        }
    }
}
