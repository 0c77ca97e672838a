//! The arcs of identifiers, of any size (X.690 8.19, 8.20).
ghost use Rattle.std.specs.Prelude.{◌≡◌, ◌<◌, ◌^◌, ◌∷◌, [], MatchOption};
ghost use Rattle.std.specs.List.{list_all};
ghost use Rattle.std.specs.Option.{option_map, SomeIff};
ghost use Rattle.der_base.specs.Arcs.{ends_below_128, first_arcs, subidentifiers};
ghost use Rattle.der_base.specs.Octets.{groups_value};
ghost use Rattle.der_values.specs.ArcNumbers.{AreEnded, arc_number, arc_numbers};

use crate::identifier::ObjectIdentifier;
use crate::oid::ends_subidentifier;

impl<'a> ObjectIdentifier<'a> {
    ghost use Rattle.der_values.specs.Identifiers.{arcs_left};

    /// The arcs, in order. None if the last octet doesn't end an arc (8.19.2). An identifier without octets has no
    /// arcs.
    pub fn arcs(self) -> Option<Arcs<'a>>
        ensures { option_map arcs_left result ≡ arc_numbers self.entry.relative self.entry.octets.now }
    {
        let octets = self.as_bytes();
        if !are_ended(octets) {
            return None;
        }
        let next = if self.is_relative() {
            NextArc::Further
        } else {
            NextArc::First
        };
        Some(Arcs { octets, next })
    }
}

/// The number of an arc: that of a subidentifier, less 40 or 80 for a second arc after 1 or 2 (8.19.4).
#[derive(Clone, Copy)]
pub struct ArcNumber<'a> {
    groups: &'a [u8],
    less: u8,
}

impl ArcNumber<'_> {
    /// The number, if its subidentifier is below 2^128.
    pub fn to_u128(self) -> Option<u128>
        ensures { SomeIff result (groups_value 0 self.entry.groups.now < 2 ^ 128) (arc_number self.entry) }
    {
        Some(number_of(self.groups)?.saturating_sub(u128::from(self.less)))
    }
}

/// The arc that an iterator returns next.
#[derive(Clone, Copy)]
enum NextArc<'a> {
    /// The first of the two arcs in the first subidentifier of an OBJECT IDENTIFIER (8.19.4).
    First,
    /// The second arc of the first subidentifier.
    Second(ArcNumber<'a>),
    /// The arc in the next subidentifier.
    Further,
}

/// The arcs of an identifier, in order.
#[derive(Clone, Copy)]
pub struct Arcs<'a> {
    octets: &'a [u8],
    next: NextArc<'a>,
    ghost ended: { AreEnded octets.now },
}

impl<'a> Iterator for Arcs<'a> {
    ghost use Rattle.std.specs.Iterator.{YieldsFirstBy, item_count};
    ghost use Rattle.der_values.specs.ArcNumbers.{arc_number};
    ghost use Rattle.der_values.specs.Identifiers.{arcs_left};

    type Item = ArcNumber<'a>;

    ghost next_gives = { YieldsFirstBy arc_number arcs_left };

    ghost remaining = { item_count arcs_left };

    fn next(&mut self) -> Option<ArcNumber<'a>> {
        if let NextArc::Second(number) = self.next {
            self.next = NextArc::Further;
            return Some(number);
        }
        let (groups, octets) = split_groups(self.octets)?;
        self.octets = octets;
        if let NextArc::First = self.next {
            let (first, second) = first_arcs(groups);
            self.next = NextArc::Second(second);
            return Some(first);
        }
        Some(ArcNumber { groups, less: 0 })
    }
}

/// Whether each subidentifier has a last octet.
pub(crate) fn are_ended(octets: &[u8]) -> bool
    ensures { result ≡ list_all ends_below_128 (subidentifiers octets.now) }
{
    if octets.is_empty() {
        return true;
    }
    ends_subidentifier(octets)
}

/// The first subidentifier, and the octets after it. None if there are no octets.
pub(crate) fn split_groups(octets: &[u8]) -> Option<(&[u8], &[u8])>
    requires { AreEnded octets.now }
    ensures { MatchOption result (octets.now ≡ [])
        (λ x. (subidentifiers octets.now ≡ x.0.now ∷ subidentifiers x.1.now) × AreEnded x.1.now) }
{
    for (index, octet) in octets.iter().enumerate() {
        if *octet < 0x80 {
            return Some((&octets[..index + 1], &octets[index + 1..]));
        }
    }
    None
}

/// The two arcs in the first subidentifier (8.19.4).
fn first_arcs(groups: &[u8]) -> (ArcNumber<'_>, ArcNumber<'_>)
    ensures { first_arcs (groups_value 0 groups.now) ≡ arc_number result.0 ∷ arc_number result.1 ∷ [] }
{
    let (first, less): (&[u8], u8) = match number_of(groups) {
        Some(0..40) => (b"\x00", 0),
        Some(40..80) => (b"\x01", 40),
        _ => (b"\x02", 80),
    };
    (
        ArcNumber {
            groups: first,
            less: 0,
        },
        ArcNumber { groups, less },
    )
}

/// The number in groups of seven bits, if it is below 2^128.
pub(crate) fn number_of(groups: &[u8]) -> Option<u128>
    ensures { SomeIff result (groups_value 0 groups.now < 2 ^ 128) (groups_value 0 groups.now) }
{
    let mut number: u128 = 0;
    for octet in groups {
        if number >= 1 << 121 {
            return None;
        }
        number = number * 128 + u128::from(*octet % 128);
    }
    Some(number)
}
