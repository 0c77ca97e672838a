//! Visitors with one function, and the walk that all visitors share.
ghost use Rattle.std.specs.Prelude.{ℕ};
ghost use Rattle.der_base.specs.Listing.{listing, list_listing};
ghost use Rattle.der_base.specs.Tree.{Node};
ghost use Rattle.der_object.specs.View.{tree, trees};
ghost use Rattle.der_visit.specs.Visiting.{TakenThrough};

use der_object::{BerObject, BerObjectContent};

/// A visitor with one function, `visit_object`. `walk` calls it at an object, and then at each item inside a SEQUENCE
/// or SET, one level deeper, in the order of the encoding.
///
/// `step` is what the function does, as a relation of the visitor before, the object, its depth and the visitor after.
/// The function has no default body, and `walk` does every step: it calls the function once at each object.
///
/// An object inside an explicit tag (`Tagged`) or an `Optional` isn't visited. Each [`Handles`](crate::Handles), and so
/// each [`Visit`](crate::Visit), is a `Walk`.
pub trait Walk {
    ghost step: { Self → Node → ℕ → Self → Type 0 };

    /// Visits one object. The depth is the number of lists around it.
    fn visit_object<'t>(&mut self, object: &BerObject<'t>, depth: usize)
        ensures { step self.old (tree object.now) depth self.new };

    /// Visits an object at depth 0, and the items inside it.
    final fn walk<'t>(&mut self, object: &BerObject<'t>)
    where
        Self: Sized,
        ensures { TakenThrough step (listing (tree object.now) 0) self.old self.new }
    {
        walk_object(self, object, 0);
    }

    /// Visits an object at this depth, and the items inside it. Depths stop at `usize::MAX`.
    final fn walk_at<'t>(&mut self, object: &BerObject<'t>, depth: usize)
    where
        Self: Sized,
        ensures { TakenThrough step (listing (tree object.now) depth) self.old self.new }
    {
        walk_object(self, object, depth);
    }
}

/// Visits an object at this depth, and the items inside it.
#[cycle(walk)]
pub fn walk_object<W: Walk>(visitor: &mut W, object: &BerObject<'_>, depth: usize)
    ensures { TakenThrough W.step (listing (tree object.now) depth) visitor.old visitor.new }
{
    visitor.visit_object(object, depth);
    match &object.content {
        BerObjectContent::Sequence(items) => {
            walk_items(visitor, items, depth.saturating_add(1));
        }
        BerObjectContent::Set(items) => walk_items(visitor, items, depth.saturating_add(1)),
        _ => {}
    }
}

/// Visits each item at this depth and the items inside it, in their order.
#[cycle(walk)]
fn walk_items<W: Walk>(visitor: &mut W, items: &[BerObject<'_>], depth: usize)
    ensures { TakenThrough W.step (list_listing (trees items.now) depth) visitor.old visitor.new }
{
    for item in items {
        walk_object(visitor, item, depth);
    }
}
