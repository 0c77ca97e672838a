//! Visitors with one function that may change objects, and the walk that all of them share.
ghost use Rattle.std.specs.Prelude.{ℕ, ◌≤◌};
ghost use Rattle.der_base.specs.Tree.{Node, height};
ghost use Rattle.der_object.specs.View.{tree, content_tree, trees};
ghost use Rattle.der_visit.specs.Changing.{ChangesObject, ChangesInside, ChangesItems};

use der_object::{BerObject, BerObjectContent};

/// A visitor with one function, `visit_object_mut`, which may change the object that it visits. `walk_mut` calls it at
/// an object, and then at each item that a SEQUENCE or SET has after the call, one level deeper, in their order. The
/// items stay at their index.
///
/// `step` is what the function does, as a relation of the visitor before, the object, its depth, the visitor after and
/// the object after. The function has no default body, and `walk_mut` does every step: it leaves no object out.
///
/// The function must not make an object deeper, so each walk ends. An object inside an explicit tag (`Tagged`) or an
/// `Optional` isn't visited. Each [`HandlesMut`](crate::HandlesMut), and so each [`VisitMut`](crate::VisitMut), is a
/// `WalkMut`.
pub trait WalkMut {
    ghost step: { Self → Node → ℕ → Self → Node → Type 0 };

    /// Visits one object. The depth is the number of lists around it. The object must not become deeper.
    fn visit_object_mut<'t>(&mut self, object: &mut BerObject<'t>, depth: usize)
        ensures step { step self.old (tree object.old) depth self.new (tree object.new) }
        ensures no_higher { height (tree object.new) ≤ height (tree object.old) };

    /// Visits an object at depth 0, and the items inside it.
    final fn walk_mut<'t>(&mut self, object: &mut BerObject<'t>)
    where
        Self: Sized,
        ensures { ChangesObject step self.old (tree object.old) 0 self.new (tree object.new) }
    {
        walk_object(self, object, 0);
    }

    /// Visits an object at this depth, and the items inside it. Depths stop at `usize::MAX`.
    final fn walk_mut_at<'t>(&mut self, object: &mut BerObject<'t>, depth: usize)
    where
        Self: Sized,
        ensures { ChangesObject step self.old (tree object.old) depth self.new (tree object.new) }
    {
        walk_object(self, object, depth);
    }
}

/// Visits an object at this depth, and the items inside it.
#[cycle(walk)]
pub fn walk_object<W: WalkMut>(visitor: &mut W, object: &mut BerObject<'_>, depth: usize)
    ensures { ChangesObject W.step visitor.old (tree object.old) depth visitor.new (tree object.new) }
{
    visitor.visit_object_mut(object, depth);
    walk_content(visitor, &mut object.content, depth);
}

/// Visits the items inside a content that is at this depth.
#[cycle(walk)]
fn walk_content<W: WalkMut>(visitor: &mut W, content: &mut BerObjectContent<'_>, depth: usize)
    ensures { ChangesInside W.step visitor.old (content_tree content.old) depth
        visitor.new (content_tree content.new) }
{
    match content {
        BerObjectContent::Sequence(items) => {
            walk_items(visitor, items, depth.saturating_add(1));
        }
        BerObjectContent::Set(items) => walk_items(visitor, items, depth.saturating_add(1)),
        _ => {}
    }
}

/// Visits each item at this depth and the items inside it, in their order. They stay at their index.
#[cycle(walk)]
fn walk_items<W: WalkMut>(visitor: &mut W, items: &mut Vec<BerObject<'_>>, depth: usize)
    ensures { ChangesItems W.step visitor.old (trees items.old.items) depth
        visitor.new (trees items.new.items) }
{
    for i in 0..items.len() {
        walk_object(visitor, &mut items[i], depth);
    }
}
