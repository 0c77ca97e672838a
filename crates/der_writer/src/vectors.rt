//! Values that are written to vectors of their size.
ghost use Rattle.std.specs.Prelude.{◌≡◌, ◌≢◌, ℕ, List, [], IfOk, IfErr, length};
ghost use Rattle.der_writer.specs.Written.{IsCount, IsPlain, Puts, Wrote};

use crate::writer::{WriteError, Writer};
use std::alloc::{AllocError, Global};

/// A value that a writer can put.
pub trait Put {
    // The octets that are put.
    ghost octets: { Self → List ℕ };

    /// Puts its octets.
    fn put(&self, fields: &mut Writer<'_>)
        ensures { IsPlain fields.old → Puts (octets self.now) fields.old fields.new };
}

/// The octets of a value. They are counted first, so memory is taken once. An error if there is none.
pub fn to_vec<T: Put>(alloc: Global, value: &T) -> Result<Vec<u8>, AllocError>
    ensures ok { IfOk result (λ v. v.items ≡ T.octets value.now) }
    ensures memory { IfErr result (λ e. T.octets value.now ≢ []) }
{
    let size = count_octets(value);
    if size == 0 {
        return Ok(Vec::new(alloc));
    }
    let mut out = vec![in alloc; 0; size]?;
    let _ = write(&mut out, value);
    Ok(out)
}

/// How many octets a value has.
fn count_octets<T: Put>(value: &T) -> usize
    ensures { IsCount result (length (T.octets value.now)) }
{
    let mut none = [];
    let mut fields = Writer::new(&mut none);
    value.put(&mut fields);
    fields.count()
}

/// Writes the octets of a value to a buffer.
fn write<T: Put>(out: &mut [u8], value: &T) -> Result<usize, WriteError>
    ensures { Wrote (T.octets value.now) out.old out.new result }
{
    let mut fields = Writer::new(out);
    value.put(&mut fields);
    fields.finish()
}
