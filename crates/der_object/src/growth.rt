//! The capacity of the list of items.
ghost use Rattle.std.specs.Prelude.{◌≡◌, ◌++◌, ◌∷◌, [], if◌then◌else◌, is_ok};

use std::alloc::AllocError;

/// Adds an item to the end of a list. If the list is full, its capacity grows: by one for the last item, which nothing
/// follows, and by three for the first of several. If there is no memory, the items stay as they are.
#[inline(always)]
pub fn push_item<T: Drop>(items: &mut Vec<T>, item: T, following: &[u8]) -> Result<(), AllocError>
    ensures items { items.new.items ≡ (if is_ok result then items.old.items ++ item ∷ [] else items.old.items) }
{
    if items.len() == items.capacity() {
        make_room(items, following)?;
    }
    items.push(item)?;
    Ok(())
}

/// Makes room for one item if it is the last, and for three if it is the first of several.
#[inline(never)]
fn make_room<T>(items: &mut Vec<T>, following: &[u8]) -> Result<(), AllocError>
    ensures { items.new.items ≡ items.old.items }
{
    if following.is_empty() {
        return items.reserve_exact(1);
    }
    if items.is_empty() {
        return items.reserve_exact(3);
    }
    Ok(())
}
