//! Equality of objects. Two objects are equal if their trees are. The length and the raw tag of a header don't matter.
ghost use Rattle.std.specs.Prelude.{◌≡◌, ◌↔◌, IsTrue};
ghost use Rattle.der_base.specs.TreeEquality.{same_node, same_content, same_nodes};
ghost use Rattle.der_object.specs.declared.object.BerObjectContent.TheVariants.{Optional};
ghost use Rattle.der_object.specs.View.{tree, content_tree, trees};

use crate::object::{BerObject, BerObjectContent};

impl PartialEq for BerObject<'_> {
    ghost use Rattle.std.specs.Cmp.{partial_equiv_from_equiv, decided, on_per};
    ghost use Rattle.der_base.proofs.TreeEqualityLaws.{same_node-Decides};

    ghost eq = { λ a b. same_node (tree a) (tree b) };

    ghost laws = { on_per tree (partial_equiv_from_equiv (decided same_node same_node-Decides)) };

    fn eq(&self, other: &Self) -> bool
        ensures value { result ≡ same_node (tree self.now) (tree other.now) }
        ensures equal { IsTrue result ↔ (tree self.now ≡ tree other.now) }
    {
        same_object(self, other)
    }
}

impl PartialEq for BerObjectContent<'_> {
    ghost use Rattle.std.specs.Cmp.{partial_equiv_from_equiv, decided, on_per};
    ghost use Rattle.der_base.proofs.TreeEqualityLaws.{same_content-Decides};

    ghost eq = { λ a b. same_content (content_tree a) (content_tree b) };

    ghost laws = { on_per content_tree (partial_equiv_from_equiv (decided same_content same_content-Decides)) };

    fn eq(&self, other: &Self) -> bool
        ensures value { result ≡ same_content (content_tree self.now) (content_tree other.now) }
        ensures equal { IsTrue result ↔ (content_tree self.now ≡ content_tree other.now) }
    {
        same_content(self, other)
    }
}

impl BerObject<'_> {
    /// Whether the other object is equal, like `==`. Unlike there, the other object may borrow from another input.
    pub fn is_equal(&self, other: &BerObject<'_>) -> bool
        ensures { IsTrue result ↔ (tree self.now ≡ tree other.now) }
    {
        same_object(self, other)
    }
}

impl BerObjectContent<'_> {
    /// Whether the other content is equal, like `==`. Unlike there, the other content may borrow from another input.
    pub fn is_equal(&self, other: &BerObjectContent<'_>) -> bool
        ensures { IsTrue result ↔ (content_tree self.now ≡ content_tree other.now) }
    {
        same_content(self, other)
    }
}

/// Whether two objects have the same tree.
#[cycle(equality)]
fn same_object(a: &BerObject<'_>, b: &BerObject<'_>) -> bool
    ensures { result ≡ same_node (tree a.now) (tree b.now) }
{
    a.header == b.header && same_content(&a.content, &b.content)
}

/// Whether two contents have the same tree.
#[cycle(equality)]
#[tactic(auto, using(crate::proofs::Trees::sequence_tree, crate::proofs::Trees::set_tree, crate::proofs::Trees::not_sequence, crate::proofs::Trees::not_set))]
fn same_content(a: &BerObjectContent<'_>, b: &BerObjectContent<'_>) -> bool
    ensures { result ≡ same_content (content_tree a.now) (content_tree b.now) }
{
    match (a, b) {
        (BerObjectContent::EndOfContent, BerObjectContent::EndOfContent) => true,
        (BerObjectContent::Boolean(x), BerObjectContent::Boolean(y)) => x == y,
        (BerObjectContent::Integer(x), BerObjectContent::Integer(y)) => x == y,
        (BerObjectContent::BitString(u, x), BerObjectContent::BitString(v, y)) => u == v && x == y,
        (BerObjectContent::OctetString(x), BerObjectContent::OctetString(y)) => x == y,
        (BerObjectContent::Null, BerObjectContent::Null) => true,
        (BerObjectContent::Enum(x), BerObjectContent::Enum(y)) => x == y,
        (BerObjectContent::OID(x), BerObjectContent::OID(y)) => x == y,
        (BerObjectContent::RelativeOID(x), BerObjectContent::RelativeOID(y)) => x == y,
        (BerObjectContent::NumericString(x), BerObjectContent::NumericString(y)) => x == y,
        (BerObjectContent::VisibleString(x), BerObjectContent::VisibleString(y)) => x == y,
        (BerObjectContent::PrintableString(x), BerObjectContent::PrintableString(y)) => x == y,
        (BerObjectContent::IA5String(x), BerObjectContent::IA5String(y)) => x == y,
        (BerObjectContent::UTF8String(x), BerObjectContent::UTF8String(y)) => x == y,
        (BerObjectContent::T61String(x), BerObjectContent::T61String(y)) => x == y,
        (BerObjectContent::VideotexString(x), BerObjectContent::VideotexString(y)) => x == y,
        (BerObjectContent::ObjectDescriptor(x), BerObjectContent::ObjectDescriptor(y)) => x == y,
        (BerObjectContent::GraphicString(x), BerObjectContent::GraphicString(y)) => x == y,
        (BerObjectContent::GeneralString(x), BerObjectContent::GeneralString(y)) => x == y,
        (BerObjectContent::BmpString(x), BerObjectContent::BmpString(y)) => x == y,
        (BerObjectContent::UniversalString(x), BerObjectContent::UniversalString(y)) => x == y,
        (BerObjectContent::Sequence(x), _) => match b {
            BerObjectContent::Sequence(y) => same_items(x, y),
            _ => false,
        },
        (BerObjectContent::Set(x), _) => match b {
            BerObjectContent::Set(y) => same_items(x, y),
            _ => false,
        },
        (BerObjectContent::UTCTime(x), BerObjectContent::UTCTime(y)) => x == y,
        (BerObjectContent::GeneralizedTime(x), BerObjectContent::GeneralizedTime(y)) => x == y,
        (BerObjectContent::Optional(x), BerObjectContent::Optional(y)) => same_optional(x, y),
        (BerObjectContent::Tagged(c, t, x), BerObjectContent::Tagged(d, u, y)) => {
            c == d && t == u && same_object(x, y)
        }
        (BerObjectContent::Unknown(x), BerObjectContent::Unknown(y)) => x == y,
        _ => false,
    }
}

/// Whether two optional objects are both absent, or have the same tree.
#[cycle(equality)]
fn same_optional(a: &Option<Box<BerObject<'_>>>, b: &Option<Box<BerObject<'_>>>) -> bool
    ensures { result ≡ same_content (content_tree (Optional a.now)) (content_tree (Optional b.now)) }
{
    match (a, b) {
        (Some(x), Some(y)) => same_object(x, y),
        (None, None) => true,
        _ => false,
    }
}

/// Whether two lists have the same trees in the same order.
#[cycle(equality)]
#[tactic(auto, using(crate::proofs::Trees::trees_end, crate::proofs::Trees::other_length))]
fn same_items(a: &[BerObject<'_>], b: &[BerObject<'_>]) -> bool
    ensures { result ≡ same_nodes (trees a.now) (trees b.now) }
{
    if a.len() != b.len() {
        return false;
    }
    for i in 0..a.len() {
        if !same_object(&a[i], &b[i]) {
            return false;
        }
    }
    true
}
