//! A text of elements that can be edited, and back to octets (docs/TEXT.md).
ghost use Rattle.std.specs.Prelude.{◌≡◌, IfOk, IsErr, IsTrue, List, Ok, OnOk, false, ℕ};
ghost use Rattle.std.specs.Io.KnownBytes.{Appends};
ghost use Rattle.der_text.specs.Looks.{ElementsText};
ghost use Rattle.der_text.specs.Texts.{octets_of_text};

use crate::name::Name;
use der_text::{Problem, octets_of, text_of};
use std::alloc::Global;
use std::io;
use std::io::{ErrorKind, Write};

/// Writes the text of octets.
pub fn write_text<W: Write>(alloc: Global, octets: &[u8], out: &mut W) -> io::Result<()>
    ensures { OnOk result ((text : List ℕ) × (octets_of_text text ≡ Ok octets.now) × ElementsText 0 octets.now text
        × Appends (W.contents out.old) (W.contents out.new) text) }
{
    let text = text_of(alloc, octets)?;
    out.write_all(&text)
}

/// Writes the octets of a text, or reports where it breaks the grammar. Returns whether they were written.
pub fn write_octets<W: Write, X: Write>(
    alloc: Global,
    name: &str,
    text: &[u8],
    out: &mut W,
    err: &mut X,
) -> io::Result<bool>
    ensures written { IfOk result (λ ok. IsTrue ok → (octets : List ℕ) × (octets_of_text text.now ≡ Ok octets)
        × Appends (W.contents out.old) (W.contents out.new) octets) }
    ensures refused { IfOk result (λ ok. ok ≡ false → IsErr (octets_of_text text.now)) }
    ensures none { IfOk result (λ ok. ok ≡ false → out.new ≡ out.old) }
{
    match octets_of(alloc, text) {
        Ok(octets) => {
            out.write_all(&octets)?;
            Ok(true)
        }
        Err(e) if e.problem == Problem::OutOfMemory => Err(io::Error::from(ErrorKind::OutOfMemory)),
        Err(e) => {
            writeln!(err, "der: {}: {e}", Name(name))?;
            Ok(false)
        }
    }
}
