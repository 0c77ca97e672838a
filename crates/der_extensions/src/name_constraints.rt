//! NameConstraints: the names that certificates after this one in a path may have (RFC 5280 4.2.1.10).
ghost use Rattle.std.specs.Prelude.{◌<◌, pos};
ghost use Rattle.std.specs.Option.{option_map};
ghost use Rattle.der_base.specs.declared.rules.Rules.{Rules};
ghost use Rattle.der_cursor.specs.Formats.{Default, Implicit, Never, Only, Optional, ReadsField, ReadsInput};
ghost use Rattle.der_cursor.specs.Formats.{ReadsWhole, Required};
ghost use Rattle.der_extensions.specs.Extensions.{BaseDistance, GeneralSubtree as SubtreeFormat, GeneralSubtrees};
ghost use Rattle.der_extensions.specs.Extensions.{NameConstraints as ConstraintsFormat, name_constraints_of};
ghost use Rattle.der_extensions.specs.Extensions.{subtree_of};
ghost use Rattle.der_extensions.specs.Lists.{list_octets};

use crate::general_name::{GeneralName, read_general_name};
use crate::list::{Item, SequenceOf, read_optional};
use der_base::error::BerError;
use der_base::header::{Class, Tag};
use der_cursor::{Cursor, ReadError};

/// The value of the extension NameConstraints.
#[derive(Drop)]
pub struct NameConstraints<'a> {
    /// The subtrees that names have to be in. At least one, if present.
    pub permitted_subtrees: Option<SequenceOf<'a, GeneralSubtree<'a>>>,
    /// The subtrees that names must not be in. At least one, if present.
    pub excluded_subtrees: Option<SequenceOf<'a, GeneralSubtree<'a>>>,
}

/// A subtree: the names below a base.
#[derive(Drop)]
pub struct GeneralSubtree<'a> {
    pub base: GeneralName<'a>,
    /// The least distance of a name from the base. RFC 5280 has 0 in every certificate; this isn't checked.
    pub minimum: u32,
    /// The greatest distance of a name from the base. RFC 5280 has None in every certificate; this isn't checked.
    pub maximum: Option<u32>,
}

/// Reads the value of a NameConstraints by DER. Trailing data is an error, and so is a distance above 2^32-1.
pub fn read_name_constraints(octets: &[u8]) -> Result<NameConstraints<'_>, ReadError<BerError>>
    ensures { ReadsInput Rules.Der ConstraintsFormat name_constraints_of Never octets.now result }
{
    match read_whole_constraints(octets) {
        Ok(constraints) => Ok(constraints),
        Err(e) => Err(e.of_element(Cursor::new(octets), Class::Universal, true, Tag::Sequence)),
    }
}

fn read_whole_constraints(octets: &[u8]) -> Result<NameConstraints<'_>, ReadError<BerError>>
    ensures { ReadsWhole (Only (Required ConstraintsFormat) Rules.Der octets.now) name_constraints_of Never result }
{
    let mut input = Cursor::new(octets);
    let constraints = read_constraints(&mut input)?;
    input.end()?;
    Ok(constraints)
}

fn read_constraints<'a>(input: &mut Cursor<'a>) -> Result<NameConstraints<'a>, ReadError<BerError>>
    ensures { ReadsField (Required ConstraintsFormat) name_constraints_of Never input.old result input.new }
{
    let mut fields = input.open_sequence()?;
    let permitted_subtrees = read_subtrees(&mut fields, 0)?;
    let excluded_subtrees = read_subtrees(&mut fields, 1)?;
    fields.end()?;
    Ok(NameConstraints {
        permitted_subtrees,
        excluded_subtrees,
    })
}

/// Reads GeneralSubtrees under an implicit tag with this number, if they are next.
fn read_subtrees<'a>(
    fields: &mut Cursor<'a>,
    number: u32,
) -> Result<Option<SequenceOf<'a, GeneralSubtree<'a>>>, ReadError<BerError>>
    ensures { ReadsField (Optional (Implicit number GeneralSubtrees)) (λ x. option_map list_octets x) Never
        fields.old result fields.new }
{
    read_optional(fields, Class::ContextSpecific, Tag(number))
}

impl<'a> Item<'a, BerError> for GeneralSubtree<'a> {
    ghost use Rattle.der_cursor.specs.Formats.{Required};
    ghost use Rattle.der_cursor.proofs.FormatLaws.{required_takes};
    ghost use Rattle.der_extensions.specs.Extensions.{GeneralSubtree as SubtreeFormat, SubtreeValue, subtree_of};

    ghost Value = { SubtreeValue };

    ghost field = { Required SubtreeFormat };

    ghost view = { subtree_of };

    fn read(list: &mut Cursor<'a>) -> Result<GeneralSubtree<'a>, ReadError<BerError>> {
        read_subtree(list)
    }

    ghost takes = { required_takes SubtreeFormat };
}

fn read_subtree<'a>(list: &mut Cursor<'a>) -> Result<GeneralSubtree<'a>, ReadError<BerError>>
    ensures { ReadsField (Required SubtreeFormat) subtree_of Never list.old result list.new }
{
    let mut fields = list.open_sequence()?;
    let base = read_general_name(&mut fields)?;
    let minimum = read_minimum(&mut fields)?;
    let maximum = read_maximum(&mut fields)?;
    fields.end()?;
    Ok(GeneralSubtree {
        base,
        minimum,
        maximum,
    })
}

fn read_minimum(fields: &mut Cursor<'_>) -> Result<u32, ReadError<BerError>>
    ensures { ReadsField (Default (Implicit 0 BaseDistance) (pos 0)) pos Never fields.old result fields.new }
{
    fields.implicit(0).u32_or(0)
}

fn read_maximum(fields: &mut Cursor<'_>) -> Result<Option<u32>, ReadError<BerError>>
    ensures { ReadsField (Optional (Implicit 1 BaseDistance)) (λ x. option_map pos x) Never
        fields.old result fields.new }
{
    fields.implicit(1).optional_u32()
}
