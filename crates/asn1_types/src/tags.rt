//! How tags are applied (X.680 31.2), and when they are made (25.7, 27.4, 29.3).
ghost use Rattle.std.specs.Prelude.{◌≡◌, IfOk, slice_get};
ghost use Rattle.asn1_types.specs.Tagging.{LeadsTo, base_at, is_said_explicit, next_base, passed_tags, retagged};
ghost use Rattle.asn1_types.specs.Tagging.{tagged_type, type_at};

use crate::item::{Item, Shape, fault_at};
use asn1_modules::{TagDefault, Tagging};
use asn1_names::{Fault, MOST_STEPS, Problem};
use der_schema::schema::{Class, Type};

/// Whether a tag is explicit whatever it is the tag of: it says so, or nothing, and its module has explicit tags
/// (31.2.7 a, b).
pub(crate) fn is_said_explicit(tagging: Tagging, default: TagDefault) -> bool
    ensures { result ≡ is_said_explicit tagging default }
{
    match tagging {
        Tagging::Explicit => true,
        Tagging::Implicit => false,
        Tagging::Default => default == TagDefault::Explicit,
    }
}

/// What references and implicit tags lead to from a type.
#[derive(Clone, Copy)]
pub(crate) struct Base {
    /// The implicit tags that were passed, if there were any.
    pub tags: Option<PassedTags>,
    /// The index of an item.
    pub end: usize,
}

/// Implicit tags around a type.
#[derive(Clone, Copy)]
pub(crate) struct PassedTags {
    /// The class of the outermost one.
    pub class: Class,
    /// The number of the outermost one.
    pub number: u32,
    /// The item of the innermost one.
    pub innermost: usize,
}

/// What references and implicit tags lead to from the item with an index: an item that is neither.
pub(crate) fn base_of(items: &[Item], start: usize) -> Result<Base, Fault>
    ensures { IfOk result (λ b. LeadsTo items.now (base_at start) b) }
{
    let mut base = Base {
        tags: None,
        end: start,
    };
    'steps: for _ in 0..MOST_STEPS {
        match next_base(items, base) {
            Some(next) => base = next,
            None => return Ok(base),
        }
    }
    Err(fault_at(items, start, Problem::Endless))
}

/// What the item at the end leads to, if it is a reference or an implicit tag.
pub(crate) fn next_base(items: &[Item], base: Base) -> Option<Base>
    ensures { result ≡ next_base (slice_get items.now base.end) base }
{
    let item = items.get(base.end)?;
    match item.shape {
        Shape::Reference => Some(Base {
            end: item.inner,
            ..base
        }),
        Shape::Tagged(class, number, false) => Some(Base {
            tags: Some(passed_tags(base, class, number)),
            end: item.inner,
        }),
        _ => None,
    }
}

/// The tags that were passed, with that of the item at the end.
fn passed_tags(base: Base, class: Class, number: u32) -> PassedTags
    ensures { result ≡ passed_tags base.tags class number base.end }
{
    match base.tags {
        Some(tags) => PassedTags {
            innermost: base.end,
            ..tags
        },
        None => PassedTags {
            class,
            number,
            innermost: base.end,
        },
    }
}

/// The type that references and implicit tags lead to, with the outermost of these tags. The innermost one is explicit
/// if the type is a CHOICE or any element (31.2.7 c). `own` has the type of each item by itself, with an explicit tag.
pub(crate) fn tagged_type(own: &[Type], base: Base) -> Type
    ensures { result ≡ tagged_type own.now base }
{
    let kind = type_at(own, base.end);
    match (base.tags, kind) {
        (None, _) => kind,
        (Some(tags), Type::Tagged(..)) => retagged(tags, kind),
        (Some(tags), _) => retagged(tags, type_at(own, tags.innermost)),
    }
}

/// The type with an index, or any element.
fn type_at(own: &[Type], index: usize) -> Type
    ensures { result ≡ type_at (slice_get own.now index) }
{
    match own.get(index) {
        Some(kind) => *kind,
        None => Type::Any,
    }
}

/// A type with an implicit tag, which takes the place of its own (X.690 8.14.3).
fn retagged(tags: PassedTags, kind: Type) -> Type
    ensures { result ≡ retagged tags kind }
{
    match kind {
        Type::Tagged(_, _, form, inside) => Type::Tagged(tags.class, tags.number, form, inside),
        _ => kind,
    }
}
