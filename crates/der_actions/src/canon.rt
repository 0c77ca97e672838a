//! The DER encoding of an input.
ghost use Rattle.std.specs.Prelude.{◌≡◌, ℕ, IfOk, IsTrue, List, None, OnOk, Some, false};
ghost use Rattle.std.specs.Io.KnownBytes.{Appends};
ghost use Rattle.der_actions.specs.Outputs.{RefusesDer, WritesDer, WritesPem};
ghost use Rattle.der_actions.specs.Pem.{InLines, IsPem};
ghost use Rattle.der_actions.specs.declared.origin.BlockName.{BlockName};

use crate::label::Label;
use crate::origin::Origin;
use crate::report::report_place;
use base64::engine::general_purpose::STANDARD;
use der_canon::{CanonError, canonical};
use der_elements::Reason;
use std::alloc::Global;
use std::io;
use std::io::{ErrorKind, Write};

/// The number of base64 characters in a line of PEM (RFC 7468 2).
const LINE: usize = 64;

/// Writes the DER encoding of octets: as octets, or in PEM with the label of their block. Returns whether it was
/// written. If not, reports on `err` where and why.
pub fn write_canonical<W: Write, X: Write>(
    alloc: Global,
    origin: Origin<'_>,
    octets: &[u8],
    out: &mut W,
    err: &mut X,
) -> io::Result<bool>
    ensures octets { origin.entry.block ≡ None
        → IfOk result (λ ok. IsTrue ok
        → WritesDer octets.now (W.contents out.old) (W.contents out.new)) }
    ensures pem { (block : BlockName) → origin.entry.block ≡ Some block
        → IfOk result (λ ok. IsTrue ok
        → WritesPem block.label.now octets.now (W.contents out.old) (W.contents out.new)) }
    ensures refused { IfOk result (λ ok. ok ≡ false
        → RefusesDer octets.now (W.contents out.old) (W.contents out.new)) }
{
    match canonical(alloc, octets) {
        Ok(written) => {
            match origin.block {
                Some(block) => write_pem(alloc, block.label, &written, out)?,
                None => out.write_all(&written)?,
            }
            Ok(true)
        }
        Err(CanonError::NotCanonical(refused)) => {
            out.flush()?;
            let here = octets.get(refused.offset..).unwrap_or(&[]);
            let reason = Reason::of(refused.cause, here);
            report_place(origin, refused.offset, &refused.path, reason, err)?;
            Ok(false)
        }
        Err(CanonError::OutOfMemory) => Err(io::Error::from(ErrorKind::OutOfMemory)),
    }
}

/// Writes octets as a PEM block (RFC 7468).
fn write_pem<W: Write>(alloc: Global, label: &[u8], octets: &[u8], out: &mut W) -> io::Result<()>
    ensures { OnOk result ((text : List ℕ) × IsPem label.now octets.now text
        × Appends (W.contents out.old) (W.contents out.new) text) }
{
    let label = Label(label);
    let text = STANDARD.encode(alloc, octets)?;
    writeln!(out, "-----BEGIN {label}-----")?;
    write_lines(text.as_bytes(), out)?;
    writeln!(out, "-----END {label}-----")
}

/// Writes a text in lines of 64 characters.
fn write_lines<W: Write>(text: &[u8], out: &mut W) -> io::Result<()>
    ensures { OnOk result ((lines : List ℕ) × InLines text.now lines
        × Appends (W.contents out.old) (W.contents out.new) lines) }
{
    let mut rest = text;
    while !rest.is_empty() {
        let (line, others) = rest.split_at(rest.len().min(LINE));
        out.write_all(line)?;
        out.write_all(b"\n")?;
        rest = others;
    }
    Ok(())
}
