//! The content octets of an OBJECT IDENTIFIER, and its arcs (X.690 8.19).
ghost use Rattle.std.specs.Prelude.{◌≡◌, ◌↔◌, ◌⊎◌, [], ◌∷◌, IsTrue, MatchOption, None, Ok, Some, false, true};
ghost use Rattle.std.specs.Option.{option_map};
ghost use Rattle.der_base.specs.Arcs.{arcs, first_arcs};
ghost use Rattle.der_base.specs.OidArcs.{octets_of_arcs};
ghost use Rattle.der_values.specs.Kinds.{Decodes, EndsSubidentifier, HasPaddedArc, absolute_arcs, absolute_octets};
ghost use Rattle.der_values.specs.Kinds.{borrowed_arcs, borrowed_octets, identifiers};

use crate::identifier::ObjectIdentifier;
use der_base::error::BerError;
use der_base::oid::Oid;

/// The OBJECT IDENTIFIER with these content octets (X.690 8.19). An arc may have any size. BerValueError if there are
/// no octets, if the last arc has no end, or if an arc begins with the octet 0x80 (8.19.2).
pub fn read_identifier(octets: &[u8]) -> Result<ObjectIdentifier<'_>, BerError>
    ensures { Decodes borrowed_octets identifiers octets.now result }
{
    let identifier = ObjectIdentifier::new(octets);
    if !ends_subidentifier(octets) || has_padded_arc(octets) {
        return Err(BerError::BerValueError);
    }
    Ok(identifier)
}

/// `read_identifier`, returning an `Oid` that borrows the octets. An arc may have any size, but `Oid::iter` only
/// returns arcs of at most nine octets.
pub fn read_oid(octets: &[u8]) -> Result<Oid<'_>, BerError>
    ensures { Decodes absolute_octets identifiers octets.now result }
{
    match read_identifier(octets) {
        Ok(identifier) => Ok(identifier.to_oid()),
        Err(e) => Err(e),
    }
}

/// Whether there are octets and the last one ends an arc.
pub fn ends_subidentifier(octets: &[u8]) -> bool
    ensures { IsTrue result ↔ EndsSubidentifier octets.now }
{
    match octets.last() {
        Some(octet) => *octet < 0x80,
        None => false,
    }
}

/// The OBJECT IDENTIFIER with these arcs and these content octets (8.19.2). The caller proves that they belong
/// together; for constants the check computes it. At run time nothing is compared or allocated.
///
/// ```
/// let key_usage = known_oid(&[2, 5, 29, 15], b"\x55\x1d\x0f");
/// ```
pub fn known_oid<'a>(_arcs: &[u64], octets: &'a [u8]) -> ObjectIdentifier<'a>
    requires { octets_of_arcs false _arcs.now ≡ Ok octets.now }
    ensures octets { result.octets.now ≡ octets.now }
    ensures absolute { result.relative ≡ false }
{
    ObjectIdentifier::new(octets)
}

/// Whether an arc begins with the octet 0x80. In an OBJECT IDENTIFIER or RELATIVE-OID none may (X.690 8.19.2).
pub fn has_padded_arc(octets: &[u8]) -> bool
    ensures { IsTrue result ↔ HasPaddedArc octets.now }
{
    let mut begins = true;
    for octet in octets {
        if begins && *octet == 0x80 {
            return true;
        }
        begins = *octet < 0x80;
    }
    false
}

/// Comparison with arcs that are known when the program is written.
///
/// ```
/// const KEY_USAGE: &[u64] = &[2, 5, 29, 15];
///
/// let is_key_usage = fields.oid()?.is(KEY_USAGE);
/// ```
pub trait HasArcs {
    ghost use Rattle.std.specs.Prelude.{ℕ, List, Option};

    ghost own_arcs: { Self → Option (List ℕ) };

    /// Whether it is the OBJECT IDENTIFIER with these arcs, as `Oid::iter` returns them. It is false for a
    /// RELATIVE-OID, and if an arc has ten octets or more. It allocates nothing, and stops at the first arc that
    /// differs.
    ///
    /// A padded arc (X.690 8.19.2) counts as its number, so `06 04 55 80 1d 0f` has the arcs of `06 03 55 1d 0f`.
    /// `read_oid` rejects it.
    fn is(&self, arcs: &[u64]) -> bool
        ensures { IsTrue result ↔ (own_arcs self.now ≡ Some arcs.now) };
}

impl HasArcs for ObjectIdentifier<'_> {
    ghost own_arcs = { borrowed_arcs };

    fn is(&self, arcs: &[u64]) -> bool {
        !self.is_relative() && have_arcs(self.as_bytes(), arcs)
    }
}

impl HasArcs for Oid<'_> {
    ghost own_arcs = { absolute_arcs };

    fn is(&self, arcs: &[u64]) -> bool {
        ObjectIdentifier::of_oid(self).is(arcs)
    }
}

/// Whether the octets of an OBJECT IDENTIFIER have these arcs.
fn have_arcs(octets: &[u8], wanted: &[u64]) -> bool
    ensures { IsTrue result ↔ (arcs false octets.now ≡ Some wanted.now) }
{
    let [first, second, further @ ..] = wanted else {
        return wanted.is_empty() && octets.is_empty();
    };
    let Some((number, rest)) = split_subidentifier(octets) else {
        return false;
    };
    let (own_first, own_second) = first_arcs(number);
    own_first == *first && own_second == *second && have_further_arcs(rest, further)
}

/// Whether the octets are one subidentifier for each of these arcs (8.20).
fn have_further_arcs(octets: &[u8], wanted: &[u64]) -> bool
    ensures { IsTrue result ↔ (arcs true octets.now ≡ Some wanted.now) }
{
    let mut left = octets;
    for arc in wanted {
        let Some((number, rest)) = split_subidentifier(left) else {
            return false;
        };
        if number != *arc {
            return false;
        }
        left = rest;
    }
    left.is_empty()
}

/// The two arcs in the first subidentifier (8.19.4).
fn first_arcs(number: u64) -> (u64, u64)
    ensures { first_arcs number ≡ result.0 ∷ result.1 ∷ [] }
{
    let first = (number / 40).min(2);
    (first, number - 40 * first)
}

/// The most octets of a subidentifier whose arc `Oid::iter` returns.
const MOST_OCTETS: usize = 9;

/// The number in the first subidentifier, and the octets after it. None if no subidentifier begins the octets, or if it
/// has more than nine octets.
fn split_subidentifier(octets: &[u8]) -> Option<(u64, &[u8])>
    ensures { MatchOption result ((octets.now ≡ []) ⊎ (arcs true octets.now ≡ None))
        (λ x. arcs true octets.now ≡ option_map (λ further. x.0 ∷ further) (arcs true x.1.now)) }
{
    let mut number: u64 = 0;
    for (index, octet) in octets.iter().enumerate() {
        if index == MOST_OCTETS {
            return None;
        }
        number = number * 128 + u64::from(*octet % 128);
        if *octet < 128 {
            return Some((number, &octets[index + 1..]));
        }
    }
    None
}
