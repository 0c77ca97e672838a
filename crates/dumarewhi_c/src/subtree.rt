//! Calls that read name constraints (RFC 5280 4.2.1.10).
ghost use Rattle.std.specs.Prelude.{◌≡◌};
ghost use Rattle.c_formats.specs.ExtensionLists.{IsNameConstraints, IsSubtree};
ghost use Rattle.c_formats.specs.Items.{Takes, left};
ghost use Rattle.c_values.specs.Faults.{Reads, value_fault};
ghost use Rattle.der_base.specs.declared.rules.Rules.TheVariants.{Der};
ghost use Rattle.der_cursor.specs.Formats.{Never, ReadsInput, Required};
ghost use Rattle.der_extensions.specs.Extensions.{GeneralSubtree as SubtreeFormat};
ghost use Rattle.der_extensions.specs.Extensions.{NameConstraints as ConstraintsFormat, name_constraints_of};
ghost use Rattle.der_extensions.specs.Extensions.{subtree_of};
ghost use Rattle.der_extensions.specs.Lists.{YieldsNext};

use c_formats::lists::next_item;
use c_formats::subtree::{DmNameConstraints, DmSubtree, write_constraints, write_subtree};
use c_values::fault::DmFault;
use c_values::octets::DmOctets;
use der_base::error::BerError;
use der_extensions::{GeneralSubtree, read_name_constraints};

/// Reads a NameConstraints by DER. Returns the fault's status.
#[unsafe(no_mangle)]
pub extern "C" fn dm_read_name_constraints<'a>(
    value: &'a [u8],
    constraints: &mut DmNameConstraints<'a>,
    fault: &mut DmFault,
) -> u32
    ensures exactly { Reads (ReadsInput Der ConstraintsFormat name_constraints_of Never value.now) IsNameConstraints
        value_fault constraints.old constraints.new fault.new }
    ensures status { result ≡ fault.new.status }
{
    *fault = write_constraints(read_name_constraints(value), constraints);
    fault.status
}

/// Takes the next subtree. Returns 1, or 0 if there is none.
#[unsafe(no_mangle)]
pub extern "C" fn dm_next_subtree<'a>(
    subtrees: &mut DmOctets<'a>,
    subtree: &mut DmSubtree<'a>,
) -> u32
    ensures { Takes (λ r. YieldsNext left subtree_of (Required SubtreeFormat) subtrees.old r subtrees.new)
        IsSubtree subtree.old subtree.new result }
{
    write_subtree(next_item::<GeneralSubtree<'a>, BerError>(subtrees), subtree)
}
