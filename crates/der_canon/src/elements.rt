//! The public calls: the size and the octets of elements as DER writes them.
ghost use Rattle.std.specs.Prelude.{◌≡◌, ◌≤◌, length, take, IfErr, IfOk, MatchOption, OnOk};
ghost use Rattle.der_elements.specs.Check.Elements.{AreElements};
ghost use Rattle.der_base.specs.declared.rules.Rules.{Rules};
ghost use Rattle.der_canon.specs.NoDer.{AllHaveDer};
ghost use Rattle.der_canon.specs.Same.{AreInDer};
ghost use Rattle.der_canon.specs.Sizes.{HasSize};
ghost use Rattle.der_canon.specs.Errors.{IsCanonErrorOf, IsErrorOf, NeedsMore};
ghost use Rattle.der_canon.specs.Written.{IsDerOf, IsRefusalOf, KeepsDer, WritesDer};

use crate::error::{CanonError, NotCanonical};
use crate::octets::copy;
use crate::piece::refuse_all;
use crate::size::size_of;
use crate::writer::write_pieces;
use der_base::rules::Rules;
use der_elements::check::are_elements;
use der_elements::{MAX_DEPTH, Walk};
use std::alloc::Global;

/// Writes elements of BER into a buffer as DER: lengths in the fewest octets (X.690 10.1), strings primitive (10.2),
/// BOOLEANs as 00 or ff (11.1), unused bits as 0 (11.2.1). The order of a SET OF, default values and the contents of
/// primitive elements of other classes stay as they are, since their types aren't known. Other values that DER doesn't
/// have, such as a time without seconds, are rejected.
///
/// Returns the size of the DER encoding, whatever the capacity. If the buffer is large enough, the encoding has been
/// written to its start, and the rest of the buffer is unchanged. Each element keeps its class, number and value; the
/// parts of a constructed string are joined. Elements that are DER already are copied. It takes no memory.
///
/// If the buffer is too small, call again with that size. The buffer's contents are unspecified then, and so is whether
/// a constructed string is rejected.
///
/// An error has the offset and the path of the first fault: the input isn't elements of BER there, or DER has no form
/// of the element. The causes of an element without a form are:
/// - `OtherPart` for a part of another type (8.6.4, 8.7.3);
/// - `UnusedBitsInside` for a part after unused bits (8.6.4);
/// - `Value` for a content that breaks a rule of DER: a time without Z or seconds (11.7, 11.8), a REAL in another form
///   than that of 11.3.
///
/// The joined content of a constructed string is checked after all these. Its error is `Value`, at the offset of the
/// string. If the encoding has more octets than a usize counts, the cause is `NotDer` and the offset 0. Only an input
/// of 2^60 octets or more can have so many.
///
/// ```
/// let mut out = [0; 8];
/// let size = canonical_into(&[0x30, 0x80, 0x01, 0x01, 0x01, 0x00, 0x00], &mut out)?;
/// // size is 5, and the first 5 octets of out are 30 03 01 01 ff
/// ```
pub fn canonical_into(octets: &[u8], out: &mut [u8]) -> Result<usize, NotCanonical>
    ensures written { WritesDer octets.now out.new result }
    ensures unchanged { KeepsDer octets.now out.old out.new result }
    ensures refused { IfErr result (IsRefusalOf octets.now) }
    ensures error { IfErr result (IsErrorOf octets.now) }
{
    if are_elements(octets, Rules::Der, MAX_DEPTH + 1) {
        copy(out, octets);
        return Ok(octets.len());
    }
    match write_others(octets, out) {
        Ok(needed) => Ok(needed),
        Err(refused) => Err(refused),
    }
}

/// Writes elements that aren't DER already.
fn write_others(octets: &[u8], out: &mut [u8]) -> Result<usize, NotCanonical>
    ensures written { IfOk result (λ n. HasSize octets.now n
        × (n ≤ length out.new → AreInDer 101 octets.now (take n out.new))) }
    ensures error { IfErr result (IsErrorOf octets.now) }
    ensures have { OnOk result (AllHaveDer octets.now) }
{
    let needed = match size_of(octets) {
        Ok(needed) => needed,
        Err(refused) => return Err(refused),
    };
    if needed > out.len() {
        return Ok(needed);
    }
    match write_pieces(octets, out) {
        Ok(()) => Ok(needed),
        Err(refused) => Err(refused),
    }
}

/// Writes elements as `canonical_into` does, to a new vector. OutOfMemory if there is no memory for it.
pub fn canonical(alloc: Global, octets: &[u8]) -> Result<Vec<u8>, CanonError>
    ensures written { IfOk result (λ v. IsDerOf octets.now v.items) }
    ensures error { IfErr result (IsCanonErrorOf octets.now) }
{
    // The encoding is seldom larger than the input.
    if let Some(written) = write_within(alloc, octets, octets.len())? {
        return Ok(written);
    }
    let none: &mut [u8] = &mut [];
    let needed = canonical_into(octets, none)?;
    match write_within(alloc, octets, needed)? {
        Some(written) => Ok(written),
        // The same octets need the same capacity.
        None => Err(CanonError::NotCanonical(refuse_all(&Walk::new(&[], Rules::Der, false)))),
    }
}

/// Writes elements to a vector of `room` octets. None if they need more.
fn write_within(alloc: Global, octets: &[u8], room: usize) -> Result<Option<Vec<u8>>, CanonError>
    ensures written { IfOk result (λ o. MatchOption o (NeedsMore octets.now room) (λ v. IsDerOf octets.now v.items)) }
    ensures error { IfErr result (IsCanonErrorOf octets.now) }
{
    let mut written = vec![in alloc; 0u8; room]?;
    let needed = canonical_into(octets, &mut written)?;
    if needed > written.len() {
        return Ok(None);
    }
    written.truncate(needed);
    Ok(Some(written))
}
