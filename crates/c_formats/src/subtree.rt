//! Name constraints (RFC 5280 4.2.1.10).
ghost use Rattle.c_formats.specs.ExtensionLists.{HasSubtree, IsNameConstraints, IsSubtree};
ghost use Rattle.c_formats.specs.Items.{Taken};
ghost use Rattle.c_values.specs.Faults.{Written, value_fault};

use crate::items::{DmGeneralName, general_name};
use crate::lists::list_or_none;
use c_values::element::bit;
use c_values::fault::{DmFault, field_fault, no_fault};
use der_base::error::BerError;
use der_cursor::ReadError;
use der_extensions::{GeneralSubtree, NameConstraints};

/// The value of a NameConstraints. Octets are slices of the value.
#[repr(C)]
#[derive(Clone, Copy)]
pub struct DmNameConstraints<'a> {
    /// The encodings of the permitted subtrees, one after another.
    pub permitted: &'a [u8],
    /// The encodings of the excluded subtrees, one after another.
    pub excluded: &'a [u8],
}

/// A subtree of names.
#[repr(C)]
#[derive(Clone, Copy)]
pub struct DmSubtree<'a> {
    /// The base of the subtree.
    pub base: DmGeneralName<'a>,
    /// The distance from the base where the subtree begins.
    pub minimum: u32,
    /// The distance from the base where the subtree ends; 0 if there is none.
    pub maximum: u32,
    /// 1 if there is a maximum, else 0.
    pub has_maximum: u32,
    /// 0.
    pub reserved: u32,
}

/// Writes a NameConstraints, or returns the fault.
pub fn write_constraints<'a>(
    found: Result<NameConstraints<'a>, ReadError<BerError>>,
    constraints: &mut DmNameConstraints<'a>,
) -> DmFault
    ensures { Written IsNameConstraints value_fault found.entry constraints.old constraints.new result }
{
    match found {
        Ok(found) => {
            *constraints = DmNameConstraints {
                permitted: list_or_none(found.permitted_subtrees),
                excluded: list_or_none(found.excluded_subtrees),
            };
            no_fault()
        }
        Err(e) => field_fault(0, e),
    }
}

/// Writes a subtree. Returns 1, or 0 if there is none.
pub fn write_subtree<'a>(found: Option<GeneralSubtree<'a>>, subtree: &mut DmSubtree<'a>) -> u32
    ensures { Taken IsSubtree found.entry subtree.old subtree.new result }
{
    match found {
        Some(found) => {
            *subtree = subtree_fields(found);
            1
        }
        None => 0,
    }
}

/// The C struct of a subtree.
fn subtree_fields<'a>(found: GeneralSubtree<'a>) -> DmSubtree<'a>
    ensures { HasSubtree found.entry result }
{
    DmSubtree {
        base: general_name(found.base),
        minimum: found.minimum,
        maximum: found.maximum.unwrap_or(0),
        has_maximum: bit(found.maximum.is_some()).into(),
        reserved: 0,
    }
}
