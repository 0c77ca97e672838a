//! Extensions by identifier, so that rules about them needn't walk the list.
ghost use Rattle.std.specs.Prelude.{◌≡◌, ◌⊎◌, ◌↔◌, IsTrue, length};
ghost use Rattle.x509_value_rules.specs.declared.facts.Fact.{Fact};
ghost use Rattle.x509_value_rules.specs.Facts.{Holds, Shows};
ghost use Rattle.der_extensions.specs.Known.{known_count};
ghost use Rattle.x509_value_rules.specs.Readings.{IsReadingOf};
ghost use Rattle.x509_value_rules.specs.Sorted.{AreSlotsOf, IsAfter, IsSorted, Puts};

use crate::facts::{Fact, holds, shows};
use crate::reading::{Reading, read_value};
use der_extensions::{KNOWN_EXTENSIONS, KnownExtension, known_extension};
use x509::{Extensions, absolute_octets};

/// The most questions for which names and values aren't read ahead. Each question then reads what it needs.
pub const FEW_QUESTIONS: usize = 24;

/// The extensions with one identifier.
#[derive(Clone, Copy)]
pub enum Slot<'a> {
    /// There is no such extension.
    Absent,
    /// There is one: whether it is critical, its value, and the reading of its value.
    Once(bool, &'a [u8], Reading),
    /// There are several, or the list wasn't walked. Each question walks the extensions.
    Unsorted,
}

/// Extensions, with a slot for each known identifier.
#[derive(Drop)]
pub struct SortedExtensions<'a> {
    pub extensions: Extensions<'a>,
    pub slots: [Slot<'a>; KNOWN_EXTENSIONS],
}

impl<'a> SortedExtensions<'a> {
    /// Sorts the extensions in one walk; with `reads_ahead`, reads their values too.
    pub fn sort(extensions: Extensions<'a>, reads_ahead: bool) -> SortedExtensions<'a>
        ensures extensions { result.extensions.octets.now ≡ extensions.entry.octets.now }
        ensures sorted { IsSorted result }
    {
        let slots = slots_of(extensions, reads_ahead);
        SortedExtensions { extensions, slots }
    }

    /// Leaves the extensions unsorted, for a single question.
    pub fn unsorted(extensions: Extensions<'a>) -> SortedExtensions<'a>
        ensures extensions { result.extensions.octets.now ≡ extensions.entry.octets.now }
        ensures sorted { IsSorted result }
    {
        let slots = [Slot::Unsorted; KNOWN_EXTENSIONS];
        SortedExtensions { extensions, slots }
    }

    /// Returns whether there may be an extension with the identifier of `known`. If there is none, it shows no fact.
    #[inline(always)]
    pub fn may_have(&self, known: KnownExtension) -> bool
        requires { IsSorted self.now }
        ensures { IsTrue result ⊎ ((fact : Fact) → ¬ Shows known fact self.now.extensions.octets.now) }
    {
        !matches!(self.slots[known.number()], Slot::Absent)
    }

    /// Returns whether an extension with the identifier of `known` shows the fact.
    #[inline(always)]
    pub fn show(&self, known: KnownExtension, fact: Fact) -> bool
        requires { IsSorted self.now }
        ensures { IsTrue result ↔ Shows known fact self.now.extensions.octets.now }
    {
        match self.slots[known.number()] {
            Slot::Absent => false,
            Slot::Once(critical, value, reading) => holds_once(fact, critical, value, reading),
            Slot::Unsorted => shows(self.extensions, known, fact),
        }
    }
}

/// Returns whether the only extension of a slot shows the fact.
#[inline(never)]
fn holds_once(fact: Fact, critical: bool, value: &[u8], reading: Reading) -> bool
    requires { IsReadingOf reading value.now }
    ensures { IsTrue result ↔ Holds fact critical value.now }
{
    match reading.shows(fact) {
        Some(answer) => answer,
        None => holds(fact, critical, value),
    }
}

/// Returns the slots of the extensions; with `reads_ahead`, their values are read.
fn slots_of<'a>(extensions: Extensions<'a>, reads_ahead: bool) -> [Slot<'a>; KNOWN_EXTENSIONS]
    ensures { AreSlotsOf extensions.entry.octets.now result }
{
    let mut slots = [Slot::Absent; KNOWN_EXTENSIONS];
    for extension in extensions.iter() {
        if let Some(known) = known_extension(absolute_octets(&extension.identifier)) {
            put(
                &mut slots,
                known,
                extension.critical,
                extension.value,
                reads_ahead,
            );
        }
    }
    slots
}

/// Puts an extension into its slot.
fn put<'a>(
    slots: &mut [Slot<'a>; KNOWN_EXTENSIONS],
    known: KnownExtension,
    critical: bool,
    value: &'a [u8],
    reads_ahead: bool,
)
    requires { length slots.old ≡ known_count }
    ensures { Puts known critical value.now slots.old slots.new }
{
    let number = known.number();
    let reading = reading_of(reads_ahead, known, value);
    slots[number] = slots[number].after(critical, value, reading);
}

/// Reads the value of an extension if `reads_ahead`.
fn reading_of(reads_ahead: bool, known: KnownExtension, value: &[u8]) -> Reading
    ensures { IsReadingOf result value.now }
{
    if reads_ahead {
        read_value(known, value)
    } else {
        Reading::Nothing
    }
}

impl<'a> Slot<'a> {
    /// The slot after one more extension.
    fn after(self, critical: bool, value: &'a [u8], reading: Reading) -> Slot<'a>
        requires { IsReadingOf reading value.now }
        ensures { IsAfter self.entry critical value.now result }
    {
        match self {
            Slot::Absent => Slot::Once(critical, value, reading),
            Slot::Once(_, _, _) | Slot::Unsorted => Slot::Unsorted,
        }
    }
}
