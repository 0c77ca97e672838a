//! The components of each SEQUENCE and SET, and the alternatives of each CHOICE.
ghost use Rattle.std.specs.Prelude.{◌≡◌, slice_get};
ghost use Rattle.asn1_types.specs.Tagging.{are_untagged, has_automatic_tags, is_tagged};

use crate::item::{Item, Shape, fault_at};
use crate::tags::base_of;
use asn1_modules::{Expected, Found, Symbol, TokenKind};
use asn1_names::{Fault, MOST_COPIES, MOST_STEPS, Problem};
use der_schema::schema::Class;
use std::alloc::{AllocError, Global};
use std::collections::{BTreeMap, BTreeSet};

/// A component or an alternative.
#[derive(Clone, Copy)]
pub(crate) struct Member {
    pub name: &'static str,
    /// The index of its item.
    pub item: usize,
    pub optional: bool,
    /// Whether it is an extension addition (X.680 25.1, 29.1).
    addition: bool,
    /// The number of its automatic tag (25.7, 29.3).
    number: Option<u32>,
}

/// Where the members of a list are in those of all lists.
#[derive(Clone, Copy)]
pub(crate) struct List {
    /// The item of the SEQUENCE, SET or CHOICE.
    pub item: usize,
    pub first: usize,
    pub end: usize,
}

/// What a member is found by: the item of its list, and its name.
#[derive(Clone, Copy, Debug, PartialEq, Eq, PartialOrd, Ord)]
pub(crate) struct ListMember {
    pub list: usize,
    pub name: &'static str,
}

/// The members of all lists.
#[derive(Drop)]
pub(crate) struct Lists {
    pub lists: Vec<List>,
    pub members: Vec<Member>,
}

/// The most extension markers that a list may have (X.680 25.1, 29.1).
const MOST_MARKERS: usize = 2;

/// A list has a marker more.
const ANOTHER_MARKER: Problem = Problem::Syntax(asn1_modules::Problem::Unexpected {
    expected: Expected::Identifier,
    found: Found::Item(TokenKind::Symbol(Symbol::Ellipsis)),
});

/// Makes the members of all lists, and adds an item for each automatic tag.
pub(crate) fn make_lists(alloc: Global, items: &mut Vec<Item>) -> Result<Lists, Fault> {
    let mut lists = Vec::new(alloc);
    let mut members = Vec::new(alloc);
    let mut copies = MOST_COPIES;
    for item in 0..items.len() {
        if !is_list(items, item) {
            continue;
        }
        let first = members.len();
        let found = members_of(alloc, items, item, MOST_STEPS, &mut copies)?;
        for member in &found {
            members.push(tagged(items, *member)?)?;
        }
        lists.push(List {
            item,
            first,
            end: members.len(),
        })?;
    }
    Ok(Lists { lists, members })
}

fn shape_at(items: &[Item], index: usize) -> Shape {
    match items.get(index) {
        Some(item) => item.shape,
        None => Shape::Any,
    }
}

fn is_list(items: &[Item], index: usize) -> bool {
    matches!(shape_at(items, index), Shape::Components(_) | Shape::Choice)
}

/// The member whose item has the automatic tag, if it has one.
fn tagged(items: &mut Vec<Item>, member: Member) -> Result<Member, AllocError> {
    let (Some(number), Some(item)) = (member.number, items.get(member.item)) else {
        return Ok(member);
    };
    let item = Item {
        shape: Shape::Tagged(Class::ContextSpecific, number, false),
        inner: member.item,
        title: "",
        ..*item
    };
    let index = items.len();
    items.push(item)?;
    Ok(Member {
        item: index,
        ..member
    })
}

/// The members of a list: COMPONENTS OF is replaced by those of its type (25.5), and an alternative that is a CHOICE
/// without a tag by those of the CHOICE. Then they have automatic tags, if it is so (25.8).
fn members_of(
    alloc: Global,
    items: &[Item],
    list: usize,
    levels: usize,
    copies: &mut usize,
) -> Result<Vec<Member>, Fault> {
    let own = own_members(alloc, items, list)?;
    let automatic = is_automatic(items, list, &own);
    let mut members = Vec::new(alloc);
    for member in &own {
        match replaced(items, list, member.item, automatic)? {
            Some(inner) => {
                let left = levels.checked_sub(1);
                let Some(left) = left else {
                    return Err(fault_at(items, member.item, Problem::Endless));
                };
                let inside = members_of(alloc, items, inner, left, copies)?;
                copy_members(&mut members, *member, &inside, copies, items)?;
            }
            None => members.push(*member)?,
        }
    }
    if automatic {
        return Ok(numbered(alloc, &members)?);
    }
    Ok(members)
}

/// Adds the members of a list that replace a member. Those of COMPONENTS OF have no extension additions (25.5).
fn copy_members(
    members: &mut Vec<Member>,
    replaced: Member,
    inside: &[Member],
    copies: &mut usize,
    items: &[Item],
) -> Result<(), Fault> {
    let components = matches!(shape_at(items, replaced.item), Shape::ComponentsOf);
    let needed = inside.len().saturating_add(1);
    if *copies < needed {
        return Err(fault_at(items, replaced.item, Problem::TooMany));
    }
    *copies -= needed;
    for member in inside {
        if !components || !member.addition {
            members.push(Member {
                addition: replaced.addition,
                optional: member.optional || replaced.addition,
                ..*member
            })?;
        }
    }
    Ok(())
}

/// The members of a list as they stand in the text.
fn own_members(alloc: Global, items: &[Item], list: usize) -> Result<Vec<Member>, Fault> {
    let mut members = Vec::new(alloc);
    let Some(around) = items.get(list) else {
        return Ok(members);
    };
    let mut index = list.saturating_add(1);
    let mut marked = Marked {
        markers: 0,
        brackets: 0,
    };
    for _ in index..around.after {
        let Some(item) = items.get(index) else {
            return Ok(members);
        };
        if around.after <= index {
            return Ok(members);
        }
        if marked.pass(item) {
            if MOST_MARKERS < marked.markers {
                return Err(fault_at(items, index, ANOTHER_MARKER));
            }
        } else {
            let addition = marked.is_addition(index);
            members.push(Member {
                name: item.name,
                item: index,
                optional: item.optional || addition,
                addition,
                number: None,
            })?;
        }
        index = next_index(item, index);
    }
    Ok(members)
}

/// The index of what follows an item in a list. The members in `[[ ]]` follow these.
fn next_index(item: &Item, index: usize) -> usize {
    if matches!(item.shape, Shape::Additions) {
        return index.saturating_add(1);
    }
    item.after
}

/// What was passed in a list.
#[derive(Clone, Copy)]
struct Marked {
    /// How many extension markers.
    markers: usize,
    /// Where the last additions in `[[ ]]` end.
    brackets: usize,
}

impl Marked {
    /// Passes an extension marker or `[[ ]]`. Returns whether it is one.
    fn pass(&mut self, item: &Item) -> bool {
        match item.shape {
            Shape::Extension => self.markers = self.markers.saturating_add(1),
            Shape::Additions => self.brackets = item.after,
            _ => return false,
        }
        true
    }

    /// Whether the member with an index is an extension addition.
    fn is_addition(&self, index: usize) -> bool {
        self.markers == 1 || index < self.brackets
    }
}

/// Whether the members of a list have automatic tags: its module says so, and no member has a tag (25.3, 25.7, 27.4,
/// 29.3).
fn is_automatic(items: &[Item], list: usize, own: &[Member]) -> bool
    ensures { result ≡ has_automatic_tags (slice_get items.now list) (are_untagged items.now own.now) }
{
    match items.get(list) {
        Some(item) if item.automatic => are_untagged(items, own),
        _ => false,
    }
}

/// Whether no member has a tag in the text.
fn are_untagged(items: &[Item], members: &[Member]) -> bool
    ensures { result ≡ are_untagged items.now members.now }
{
    let mut ahead = members;
    while let Some((member, rest)) = ahead.split_first() {
        if is_tagged(items, member.item) {
            return false;
        }
        ahead = rest;
    }
    true
}

/// Whether the item with an index has a tag in the text.
fn is_tagged(items: &[Item], index: usize) -> bool
    ensures { result ≡ is_tagged (slice_get items.now index) }
{
    match items.get(index) {
        Some(item) => matches!(item.shape, Shape::Tagged(..)),
        None => false,
    }
}

/// The list that replaces a member, if one does.
fn replaced(
    items: &[Item],
    list: usize,
    member: usize,
    automatic: bool,
) -> Result<Option<usize>, Fault> {
    match (shape_at(items, list), shape_at(items, member)) {
        (Shape::Components(number), Shape::ComponentsOf) => {
            let base = base_of(items, member.saturating_add(1))?;
            match shape_at(items, base.end) {
                Shape::Components(other) if other == number => Ok(Some(base.end)),
                _ => Err(fault_at(items, member, Problem::NoComponents)),
            }
        }
        (Shape::Choice, _) if !automatic => {
            let base = base_of(items, member)?;
            match (shape_at(items, base.end), base.tags) {
                (Shape::Choice, None) => Ok(Some(base.end)),
                _ => Ok(None),
            }
        }
        _ => Ok(None),
    }
}

/// The members of a list with automatic tags: first those that aren't extension additions are numbered, then these
/// (25.8).
fn numbered(alloc: Global, members: &[Member]) -> Result<Vec<Member>, AllocError> {
    let mut numbered = Vec::new(alloc);
    let mut next: u32 = 0;
    let mut next_addition = root_count(members);
    for member in members {
        let number = if member.addition { next_addition } else { next };
        if member.addition {
            next_addition = next_addition.saturating_add(1);
        } else {
            next = next.saturating_add(1);
        }
        numbered.push(Member {
            number: Some(number),
            ..*member
        })?;
    }
    Ok(numbered)
}

/// How many members aren't extension additions.
fn root_count(members: &[Member]) -> u32 {
    let mut count: u32 = 0;
    for member in members {
        if !member.addition {
            count = count.saturating_add(1);
        }
    }
    count
}

/// The items of the alternatives of CHOICEs that are selected from.
#[derive(Drop)]
struct Alternatives {
    alloc: Global,
    choices: BTreeSet<usize>,
    items: BTreeMap<ListMember, usize>,
}

impl Alternatives {
    fn new(alloc: Global) -> Alternatives {
        Alternatives {
            alloc,
            choices: BTreeSet::new(alloc),
            items: BTreeMap::new(alloc),
        }
    }

    /// The item of the first alternative with a name.
    fn named(&mut self, items: &[Item], named: ListMember) -> Result<Option<usize>, Fault> {
        if self.choices.insert(named.list)? {
            let members = own_members(self.alloc, items, named.list)?;
            for member in members.iter().rev() {
                let key = ListMember {
                    name: member.name,
                    ..named
                };
                self.items.insert(key, member.item)?;
            }
        }
        Ok(self.items.get(&named).copied())
    }
}

/// Replaces selection types by references to the alternative that they select (30.1).
pub(crate) fn select(alloc: Global, items: &mut Vec<Item>) -> Result<(), Fault> {
    let mut alternatives = Alternatives::new(alloc);
    for index in (0..items.len()).rev() {
        if let Shape::Selection(name) = shape_at(items, index) {
            let selected = selected(&mut alternatives, items, index, name)?;
            if let Some(item) = items.get_mut(index) {
                *item = selecting(*item, selected);
            }
        }
    }
    Ok(())
}

/// A selection type as a reference to the item that it selects, or as any element.
fn selecting(item: Item, selected: Option<usize>) -> Item {
    match selected {
        Some(inner) => Item {
            shape: Shape::Reference,
            inner,
            ..item
        },
        None => Item {
            shape: Shape::Any,
            ..item
        },
    }
}

/// The item of the alternative that a selection type selects. None if its type is any element, or is itself selected
/// elsewhere.
fn selected(
    alternatives: &mut Alternatives,
    items: &[Item],
    selection: usize,
    name: &'static str,
) -> Result<Option<usize>, Fault> {
    let base = base_of(items, selection.saturating_add(1))?;
    match shape_at(items, base.end) {
        Shape::Any | Shape::Unknown | Shape::Selection(_) => return Ok(None),
        Shape::Choice => {
            let named = ListMember {
                list: base.end,
                name,
            };
            if let Some(item) = alternatives.named(items, named)? {
                return Ok(Some(item));
            }
        }
        _ => {}
    }
    Err(fault_at(items, selection, Problem::NoAlternative(name)))
}
