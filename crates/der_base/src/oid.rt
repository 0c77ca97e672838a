//! Object identifiers, absolute and relative (X.690 8.19 and 8.20).
ghost use Rattle.std.specs.Prelude.{◌≡◌, ◌↔◌, ◌+◌, ◌*◌, ◌++◌, ◌∷◌, [], ◌⊎◌, true, false, IsTrue};
ghost use Rattle.std.specs.Prelude.{OnOk, IfOk, IsOkAnd, MatchResult, Some, None, Err, MatchOption};
ghost use Rattle.std.specs.Cow.{cow_slice_items, IsBorrowedSlice};
ghost use Rattle.std.specs.Option.{option_map, SomeIff};
ghost use Rattle.std.specs.Str.Parse.{digits_value};
ghost use Rattle.der_base.specs.declared.error.OidParseError.TheVariants.{OutOfMemory, ParseInt};
ghost use Rattle.std.specs.List.{list_all, flat_map};
ghost use Rattle.der_base.specs.Arcs.{subidentifiers, is_whole, first_arcs};
ghost use Rattle.der_base.specs.Octets.{groups_before, groups};
ghost use Rattle.der_base.specs.OidArcs.{AreWhole, subidentifier_values, have_subidentifier};
ghost use Rattle.der_base.specs.OidArcs.{octets_of_arcs, is_arc, dotted_arcs, octets_if_arcs, ArcsComeBack};

use crate::error::OidParseError;
use std::alloc::{AllocError, Global};
use std::borrow::CowSlice;

/// An object identifier, kept as its content octets.
#[derive(Debug, Drop)]
pub struct Oid<'a> {
    octets: CowSlice<'a, u8>,
    relative: bool,
}

impl<'a> Oid<'a> {
    ghost use Rattle.der_base.specs.Arcs.{arcs};
    ghost use Rattle.der_base.specs.Oids.{octets_of, is_relative_of, arcs_left, Makes, IsBorrowed};

    /// The OBJECT IDENTIFIER with these content octets (8.19). They aren't checked.
    pub fn new(octets: CowSlice<'a, u8>) -> Oid<'a>
        ensures octets { octets_of result ≡ cow_slice_items octets.entry }
        ensures absolute { is_relative_of result ≡ false }
        ensures borrowed { IsBorrowedSlice octets.entry → IsBorrowed result }
    {
        Oid {
            octets,
            relative: false,
        }
    }

    /// The RELATIVE-OID with these content octets (8.20). They aren't checked.
    pub fn new_relative(octets: CowSlice<'a, u8>) -> Oid<'a>
        ensures octets { octets_of result ≡ cow_slice_items octets.entry }
        ensures relative { is_relative_of result ≡ true }
        ensures borrowed { IsBorrowedSlice octets.entry → IsBorrowed result }
    {
        Oid {
            octets,
            relative: true,
        }
    }

    /// The OBJECT IDENTIFIER with these arcs (8.19).
    ///
    /// Errors: TooShort for fewer than two arcs; FirstComponentsTooLarge if the first is above 2, the second is above
    /// 39 after 0 or 1, or their subidentifier is above 2^64-1; OutOfMemory.
    pub fn from(alloc: Global, arcs: &[u64]) -> Result<Oid<'a>, OidParseError>
        ensures { Makes false (octets_of_arcs false arcs.now) result }
    {
        let [first, second, others @ ..] = arcs else {
            return Err(OidParseError::TooShort);
        };
        let Some(value) = first_value(*first, *second) else {
            return Err(OidParseError::FirstComponentsTooLarge);
        };
        let mut octets = Vec::new(alloc);
        push_subidentifier(&mut octets, value)?;
        push_subidentifiers(&mut octets, others)?;
        Ok(Oid::new(CowSlice::Owned(octets)))
    }

    /// The RELATIVE-OID with these arcs (8.20).
    ///
    /// Errors: TooShort for no arcs; OutOfMemory.
    pub fn from_relative(alloc: Global, arcs: &[u64]) -> Result<Oid<'a>, OidParseError>
        ensures { Makes true (octets_of_arcs true arcs.now) result }
    {
        if arcs.is_empty() {
            return Err(OidParseError::TooShort);
        }
        let mut octets = Vec::new(alloc);
        push_subidentifiers(&mut octets, arcs)?;
        Ok(Oid::new_relative(CowSlice::Owned(octets)))
    }

    /// The OBJECT IDENTIFIER of a dotted text: arcs in decimal digits with a point between them. Leading zeros are
    /// allowed.
    ///
    /// Errors: ParseInt if a component is empty, isn't made of digits, or is above 2^64-1; then those of `from`.
    /// OutOfMemory can replace any result.
    ///
    /// ```
    /// let common_name = Oid::from_dotted(alloc, "2.5.4.3")?;
    /// assert_eq!(common_name.as_bytes(), [0x55, 0x04, 0x03]);
    /// ```
    pub fn from_dotted(alloc: Global, text: &str) -> Result<Oid<'a>, OidParseError>
        ensures { (result ≡ Err OutOfMemory) ⊎ Makes false (octets_if_arcs (dotted_arcs text.now)) result }
    {
        let arcs = parse_arcs(alloc, text)?;
        Oid::from(alloc, &arcs)
    }

    /// A copy. A borrowed identifier is copied without allocation, and its copy borrows the same octets.
    pub fn try_clone(&self, alloc: Global) -> Result<Oid<'a>, AllocError>
        ensures same { IfOk result
            (λ x. (octets_of x ≡ octets_of self.now) × (is_relative_of x ≡ is_relative_of self.now)) }
        ensures borrowed { IsBorrowed self.now → IsOkAnd result IsBorrowed }
    {
        let octets = match &self.octets {
            CowSlice::Borrowed(octets) => CowSlice::Borrowed(*octets),
            CowSlice::Owned(octets) => CowSlice::Owned(Vec::from_slice(alloc, octets)?),
        };
        Ok(Oid {
            octets,
            relative: self.relative,
        })
    }

    /// The content octets.
    pub fn as_bytes(&self) -> &[u8]
        ensures { result.now ≡ octets_of self.now }
    {
        self.octets.as_slice()
    }

    /// Whether it is a RELATIVE-OID.
    pub fn is_relative(&self) -> bool
        ensures { result ≡ is_relative_of self.now }
    {
        self.relative
    }

    /// The arcs, in order. None if a subidentifier has no last octet, or has ten octets or more (8.19.2). An identifier
    /// without octets has no arcs.
    pub fn iter(&self) -> Option<OidIter<'_>>
        ensures { option_map arcs_left result ≡ arcs (is_relative_of self.now) (octets_of self.now) }
    {
        let octets = self.as_bytes();
        if !are_whole(octets) {
            return None;
        }
        let next = if self.relative {
            NextArc::Further
        } else {
            NextArc::First
        };
        Some(OidIter { octets, next })
    }
}

/// Two identifiers are equal iff their octets are, and both or neither are relative.
impl PartialEq for Oid<'_> {
    ghost use Rattle.std.specs.Ordering.{eq_of_both, on};
    ghost use Rattle.std.specs.Cmp.Rules.{comparing};
    ghost use Rattle.std.proofs.Common.{rules};
    ghost use Rattle.der_base.specs.Oids.{octets_of, is_relative_of};
    ghost use Rattle.der_base.specs.TreeEquality.{same_octets};
    ghost use mathlib.Core.Bool.{beq};

    ghost eq = { eq_of_both (on octets_of same_octets) (on is_relative_of beq) };

    ghost laws = { Prim.search (comparing, rules) };

    fn eq(&self, other: &Self) -> bool
        ensures value { result ≡ eq_of_both (on octets_of same_octets) (on is_relative_of beq) self.now other.now }
        ensures equal { IsTrue result
            ↔ ((octets_of self.now ≡ octets_of other.now) × (is_relative_of self.now ≡ is_relative_of other.now)) }
    {
        self.as_bytes() == other.as_bytes() && self.relative == other.relative
    }
}

/// The arc that an iterator returns next.
#[derive(Clone, Copy, Debug)]
enum NextArc {
    /// The first of the two arcs in the first subidentifier of an absolute identifier (8.19.4).
    First,
    /// The second arc of the first subidentifier.
    Second(u64),
    /// The arc in the next subidentifier.
    Further,
}

/// The arcs of an identifier, in order.
#[derive(Debug, Drop)]
pub struct OidIter<'a> {
    octets: &'a [u8],
    next: NextArc,
    ghost whole: { AreWhole octets.now },
}

impl Iterator for OidIter<'_> {
    ghost use Rattle.std.specs.Iterator.{YieldsFirst, item_count};
    ghost use Rattle.der_base.specs.Oids.{arcs_left};

    type Item = u64;

    ghost next_gives = { YieldsFirst arcs_left };

    ghost remaining = { item_count arcs_left };

    fn next(&mut self) -> Option<u64> {
        if let NextArc::Second(arc) = self.next {
            self.next = NextArc::Further;
            return Some(arc);
        }
        let (value, octets) = split_subidentifier(self.octets)?;
        self.octets = octets;
        if let NextArc::First = self.next {
            let (first, second) = first_arcs(value);
            self.next = NextArc::Second(second);
            return Some(first);
        }
        Some(value)
    }
}

/// The arcs of a dotted text.
fn parse_arcs(alloc: Global, text: &str) -> Result<Vec<u64>, OidParseError>
    ensures { MatchResult result
        (λ v. dotted_arcs text.now ≡ Some v.items)
        (λ e. (e ≡ OutOfMemory) ⊎ ((e ≡ ParseInt) × (dotted_arcs text.now ≡ None))) }
{
    let mut arcs = Vec::new(alloc);
    for component in text.split('.') {
        let Some(arc) = parse_arc(component) else {
            return Err(OidParseError::ParseInt);
        };
        arcs.push(arc)?;
    }
    Ok(arcs)
}

/// The number in decimal digits, if it is below 2^64.
fn parse_arc(digits: &str) -> Option<u64>
    ensures { SomeIff result (IsTrue (is_arc digits.now)) (digits_value 10 digits.now) }
{
    // `parse` accepts a sign, which isn't a digit.
    if digits.starts_with('+') {
        return None;
    }
    digits.parse().ok()
}

/// The two arcs in the first subidentifier of an absolute identifier (8.19.4).
fn first_arcs(value: u64) -> (u64, u64)
    ensures { first_arcs value ≡ result.0 ∷ result.1 ∷ [] }
{
    match value {
        0..40 => (0, value),
        40..80 => (1, value - 40),
        _ => (2, value - 80),
    }
}

/// The most octets before the last one in a subidentifier of fewer than ten octets.
const MOST_BEFORE_LAST: usize = 8;

/// Whether each subidentifier has a last octet, and fewer than ten octets.
fn are_whole(octets: &[u8]) -> bool
    ensures { result ≡ list_all is_whole (subidentifiers octets.now) }
{
    // The number of octets after the last complete subidentifier.
    let mut open: usize = 0;
    for octet in octets {
        if *octet < 128 {
            open = 0;
        } else if open == MOST_BEFORE_LAST {
            return false;
        } else {
            open += 1;
        }
    }
    open == 0
}

/// The number in the first subidentifier, and the octets after it. None if there are no octets.
fn split_subidentifier(octets: &[u8]) -> Option<(u64, &[u8])>
    requires { AreWhole octets.now }
    ensures { MatchOption result (octets.now ≡ [])
        (λ x. (subidentifier_values octets.now ≡ x.0 ∷ subidentifier_values x.1.now) × AreWhole x.1.now) }
{
    let mut number: u64 = 0;
    for (index, octet) in octets.iter().enumerate() {
        number = number * 128 + u64::from(*octet % 128);
        if *octet < 128 {
            return Some((number, &octets[index + 1..]));
        }
    }
    None
}

/// The first subidentifier for the first two arcs of an absolute identifier (8.19.4), if there is one.
fn first_value(first: u64, second: u64) -> Option<u64>
    ensures { SomeIff result (IsTrue (have_subidentifier first second)) (40 * first + second) }
{
    match first {
        0 | 1 if second < 40 => Some(first * 40 + second),
        2 => second.checked_add(80),
        _ => None,
    }
}

/// Appends numbers, each as a subidentifier.
fn push_subidentifiers(octets: &mut Vec<u8>, values: &[u64]) -> Result<(), AllocError>
    ensures { OnOk result (octets.new.items ≡ octets.old.items ++ flat_map groups values.now) }
{
    for value in values {
        push_subidentifier(octets, *value)?;
    }
    Ok(())
}

/// Appends a number as a subidentifier, in the fewest groups of seven bits (8.19.2).
fn push_subidentifier(octets: &mut Vec<u8>, value: u64) -> Result<(), AllocError>
    ensures { OnOk result (octets.new.items ≡ octets.old.items ++ groups value) }
{
    let mut last_groups = [0; 10];
    last_groups[9] = (value % 128) as u8;
    let mut begin: usize = 9;
    let mut rest = value / 128;
    while rest != 0 {
        begin -= 1;
        last_groups[begin] = 128 + (rest % 128) as u8;
        rest /= 128;
    }
    octets.extend_from_slice(&last_groups[begin..])
}

/// For an identifier that was made from arcs, `iter` returns these arcs, if each of its subidentifiers is below 2^63.
pub fn arcs_come_back()
    ensures { ArcsComeBack }
{}
