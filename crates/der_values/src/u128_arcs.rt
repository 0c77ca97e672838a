//! The arcs of identifiers as numbers below 2^128 (X.690 8.19, 8.20).
ghost use Rattle.std.specs.Prelude.{◌≡◌, ◌∷◌, [], MatchOption};
ghost use Rattle.std.specs.List.{list_all};
ghost use Rattle.std.specs.Option.{option_map};
ghost use Rattle.der_base.specs.Arcs.{first_arcs, subidentifiers};
ghost use Rattle.der_base.specs.OidArcs.{subidentifier_values};
ghost use Rattle.der_values.specs.ArcNumbers.{FitU128, fits_u128, u128_arcs};

use crate::arcs::{are_ended, number_of, split_groups};
use crate::identifier::ObjectIdentifier;

impl<'a> ObjectIdentifier<'a> {
    ghost use Rattle.der_values.specs.Identifiers.{u128_arcs_left};

    /// The arcs as numbers, in order. None if the last octet doesn't end an arc (8.19.2), or if a subidentifier is
    /// 2^128 or more. An identifier without octets has no arcs.
    pub fn u128_arcs(self) -> Option<U128Arcs<'a>>
        ensures { option_map u128_arcs_left result ≡ u128_arcs self.entry.relative self.entry.octets.now }
    {
        let octets = self.as_bytes();
        if !fit_u128(octets) {
            return None;
        }
        let next = if self.is_relative() {
            NextNumber::Further
        } else {
            NextNumber::First
        };
        Some(U128Arcs { octets, next })
    }
}

/// The arc that an iterator returns next.
#[derive(Clone, Copy)]
enum NextNumber {
    /// The first of the two arcs in the first subidentifier of an OBJECT IDENTIFIER (8.19.4).
    First,
    /// The second arc of the first subidentifier.
    Second(u128),
    /// The arc in the next subidentifier.
    Further,
}

/// The arcs of an identifier as numbers, in order.
#[derive(Clone, Copy)]
pub struct U128Arcs<'a> {
    octets: &'a [u8],
    next: NextNumber,
    ghost small: { FitU128 octets.now },
}

impl Iterator for U128Arcs<'_> {
    ghost use Rattle.std.specs.Iterator.{YieldsFirst, item_count};
    ghost use Rattle.der_values.specs.Identifiers.{u128_arcs_left};

    type Item = u128;

    ghost next_gives = { YieldsFirst u128_arcs_left };

    ghost remaining = { item_count u128_arcs_left };

    fn next(&mut self) -> Option<u128> {
        if let NextNumber::Second(number) = self.next {
            self.next = NextNumber::Further;
            return Some(number);
        }
        let (number, octets) = split_number(self.octets)?;
        self.octets = octets;
        if let NextNumber::First = self.next {
            let (first, second) = first_numbers(number);
            self.next = NextNumber::Second(second);
            return Some(first);
        }
        Some(number)
    }
}

/// Whether each subidentifier has a last octet, and is below 2^128.
fn fit_u128(octets: &[u8]) -> bool
    ensures { result ≡ list_all fits_u128 (subidentifiers octets.now) }
{
    if !are_ended(octets) {
        return false;
    }
    let mut left = octets;
    while let Some((groups, rest)) = split_groups(left) {
        if number_of(groups).is_none() {
            return false;
        }
        left = rest;
    }
    true
}

/// The number of the first subidentifier, and the octets after it. None if there are no octets.
fn split_number(octets: &[u8]) -> Option<(u128, &[u8])>
    requires { FitU128 octets.now }
    ensures { MatchOption result (octets.now ≡ [])
        (λ x. (subidentifier_values octets.now ≡ x.0 ∷ subidentifier_values x.1.now) × FitU128 x.1.now) }
{
    let Some((groups, rest)) = split_groups(octets) else {
        return None;
    };
    match number_of(groups) {
        Some(number) => Some((number, rest)),
        None => None,
    }
}

/// The two arcs in the first subidentifier (8.19.4).
fn first_numbers(number: u128) -> (u128, u128)
    ensures { first_arcs number ≡ result.0 ∷ result.1 ∷ [] }
{
    match number {
        0..40 => (0, number),
        40..80 => (1, number - 40),
        _ => (2, number - 80),
    }
}
