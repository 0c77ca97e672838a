//! Combinators that keep a parser of items: a SEQUENCE, a SET, and lists of one type.
ghost use Rattle.std.specs.Prelude.{◌≡◌};
ghost use Rattle.der_base.specs.declared.rules.Rules.TheVariants.{Ber, Der};
ghost use Rattle.der_base.specs.Containers.{Keeps, Made, NumberRun, OnContent};
ghost use Rattle.der_combinators.specs.declared.list_type.ListType.TheVariants.{Sequence, Set};
ghost use Rattle.der_combinators.specs.Lists.{IsListOf, OnItems, list_number};

use crate::items::{parse_items, parse_objects};
use crate::list_type::ListType;
use crate::opening::{open_number, parse_list_content};
use crate::wrapping::with_list;
use der_base::error::{BerError, IResult, ParseError};
use der_base::rules::Rules;
use der_object::BerObject;
use std::alloc::Global;
use std::marker::Model;

/// A parser of SEQUENCE OF or SET OF, which keeps the rules, the type and the parser of its items.
#[derive(Drop)]
pub struct ListOfValues<F> {
    rules: Rules,
    list: ListType,
    f: F,
    alloc: Global,
}

impl<F> Model for ListOfValues<F> {
    ghost use Rattle.der_base.specs.declared.rules.Rules.{Rules};
    ghost use Rattle.der_combinators.specs.declared.list_type.ListType.{ListType};

    ghost Value = { (Rules × ListType) × F };

    ghost view = { λ c. ((c.rules, c.list), c.f) };
}

/// A BER parser of an element with tag number 16, SEQUENCE. `f` reads its content, value after value (X.690 8.10).
pub fn parse_ber_sequence_of_v<'a, F, O, E>(alloc: Global, f: F) -> ListOfValues<F>
where
    F: FnMut(&'a [u8]) -> IResult<&'a [u8], O, E>,
    ensures { result ≡ ((Ber, Sequence), f) }
{
    ListOfValues::new(Rules::Ber, ListType::Sequence, f, alloc)
}

/// A BER parser of an element with tag number 17, SET. `f` reads its content, value after value (X.690 8.12).
pub fn parse_ber_set_of_v<'a, F, O, E>(alloc: Global, f: F) -> ListOfValues<F>
where
    F: FnMut(&'a [u8]) -> IResult<&'a [u8], O, E>,
    ensures { result ≡ ((Ber, Set), f) }
{
    ListOfValues::new(Rules::Ber, ListType::Set, f, alloc)
}

/// A DER parser of an element with tag number 16, SEQUENCE. `f` reads its content, value after value (X.690 8.10).
///
/// ```
/// let (rest, numbers) = parse_der_sequence_of_v(alloc, parse_der_i32).parse(input)?;
/// ```
pub fn parse_der_sequence_of_v<'a, F, O, E>(alloc: Global, f: F) -> ListOfValues<F>
where
    F: FnMut(&'a [u8]) -> IResult<&'a [u8], O, E>,
    ensures { result ≡ ((Der, Sequence), f) }
{
    ListOfValues::new(Rules::Der, ListType::Sequence, f, alloc)
}

/// A DER parser of an element with tag number 17, SET. `f` reads its content, value after value (X.690 8.12). The
/// octets of the values have to ascend (11.6).
pub fn parse_der_set_of_v<'a, F, O, E>(alloc: Global, f: F) -> ListOfValues<F>
where
    F: FnMut(&'a [u8]) -> IResult<&'a [u8], O, E>,
    ensures { result ≡ ((Der, Set), f) }
{
    ListOfValues::new(Rules::Der, ListType::Set, f, alloc)
}

impl<F> ListOfValues<F> {
    /// The parser that keeps these.
    fn new(rules: Rules, list: ListType, f: F, alloc: Global) -> ListOfValues<F>
        ensures { result ≡ ((rules, list), f) }
    {
        ListOfValues {
            rules,
            list,
            f,
            alloc,
        }
    }

    /// Reads an element of the type's tag number, of any class, as `NumberedContainer::parse`. Calls the kept parser on
    /// its content octets, and then on what each call leaves, also if that is nothing: Incomplete there ends the list.
    /// Returns the values in their order.
    ///
    /// Errors:
    /// - those of `NumberedContainer::parse`, without a call of the parser;
    /// - that of Eof if the parser returns Incomplete and octets are left, at these octets;
    /// - that of Many0 if the parser takes no octets, at the octets that it was given;
    /// - by DER, SetOfOrder if a value of a SET OF is less than the one before (X.690 11.6). Their octets are compared,
    ///   the shorter padded at its end with zeros. The parser isn't called again, and the value takes no memory.
    ///
    /// An Error of the parser becomes a Failure. Its Failure and OutOfMemory are returned as they are. The list may run
    /// out of memory at each value.
    #[inline(always)]
    pub fn parse<'a, O, E>(&mut self, i: &'a [u8]) -> IResult<&'a [u8], Vec<O>, E>
    where
        F: FnMut(&'a [u8]) -> IResult<&'a [u8], O, E>,
        O: Drop,
        E: ParseError<&'a [u8]> + From<BerError>,
        requires { F.IsAlwaysCallable self.old.1 }
        ensures callable { F.IsAlwaysCallable self.new.1 }
        ensures run { Keeps (λ t. NumberRun t.0 (list_number t.1) E.from_error_kind_gives E.from_gives i.now
            (OnItems t.0 t.1 E.from_error_kind_gives E.from_gives F.step)) self.old result self.new }
    {
        let opened = open_number(self.rules, i, self.list.tag());
        parse_items(self.rules, self.list, self.alloc, &mut self.f, opened)
    }
}

/// A parser of a SEQUENCE OF or SET OF object, which keeps the rules, the type and the parser of its
/// items.
#[derive(Drop)]
pub struct ListOfObjects<F> {
    rules: Rules,
    list: ListType,
    f: F,
    alloc: Global,
}

impl<F> Model for ListOfObjects<F> {
    ghost use Rattle.der_base.specs.declared.rules.Rules.{Rules};
    ghost use Rattle.der_combinators.specs.declared.list_type.ListType.{ListType};

    ghost Value = { (Rules × ListType) × F };

    ghost view = { λ c. ((c.rules, c.list), c.f) };
}

/// A BER parser of an element with tag number 16, SEQUENCE. `f` reads its content, object after object (X.690 8.10).
pub fn parse_ber_sequence_of<'a, F, E>(alloc: Global, f: F) -> ListOfObjects<F>
where
    F: FnMut(&'a [u8]) -> IResult<&'a [u8], BerObject<'a>, E>,
    ensures { result ≡ ((Ber, Sequence), f) }
{
    ListOfObjects::new(Rules::Ber, ListType::Sequence, f, alloc)
}

/// A BER parser of an element with tag number 17, SET. `f` reads its content, object after object (X.690 8.12).
pub fn parse_ber_set_of<'a, F, E>(alloc: Global, f: F) -> ListOfObjects<F>
where
    F: FnMut(&'a [u8]) -> IResult<&'a [u8], BerObject<'a>, E>,
    ensures { result ≡ ((Ber, Set), f) }
{
    ListOfObjects::new(Rules::Ber, ListType::Set, f, alloc)
}

/// A DER parser of an element with tag number 16, SEQUENCE. `f` reads its content, object after object (X.690 8.10).
pub fn parse_der_sequence_of<'a, F, E>(alloc: Global, f: F) -> ListOfObjects<F>
where
    F: FnMut(&'a [u8]) -> IResult<&'a [u8], BerObject<'a>, E>,
    ensures { result ≡ ((Der, Sequence), f) }
{
    ListOfObjects::new(Rules::Der, ListType::Sequence, f, alloc)
}

/// A DER parser of an element with tag number 17, SET. `f` reads its content, object after object (X.690 8.12). The
/// octets of the objects have to ascend (11.6).
pub fn parse_der_set_of<'a, F, E>(alloc: Global, f: F) -> ListOfObjects<F>
where
    F: FnMut(&'a [u8]) -> IResult<&'a [u8], BerObject<'a>, E>,
    ensures { result ≡ ((Der, Set), f) }
{
    ListOfObjects::new(Rules::Der, ListType::Set, f, alloc)
}

impl<F> ListOfObjects<F> {
    /// The parser that keeps these.
    fn new(rules: Rules, list: ListType, f: F, alloc: Global) -> ListOfObjects<F>
        ensures { result ≡ ((rules, list), f) }
    {
        ListOfObjects {
            rules,
            list,
            f,
            alloc,
        }
    }

    /// Reads as `ListOfValues::parse`, with its errors and its OutOfMemory. Returns the SEQUENCE or SET of the items,
    /// as `BerObject::from_seq` or `BerObject::from_set` makes it.
    #[inline(always)]
    pub fn parse<'a, E>(&mut self, i: &'a [u8]) -> IResult<&'a [u8], BerObject<'a>, E>
    where
        F: FnMut(&'a [u8]) -> IResult<&'a [u8], BerObject<'a>, E>,
        E: ParseError<&'a [u8]> + From<BerError>,
        requires { F.IsAlwaysCallable self.old.1 }
        ensures callable { F.IsAlwaysCallable self.new.1 }
        ensures run { Keeps (λ t. NumberRun t.0 (list_number t.1) E.from_error_kind_gives E.from_gives i.now
            (Made (λ _. IsListOf t.1) (OnItems t.0 t.1 E.from_error_kind_gives E.from_gives F.step)))
            self.old result self.new }
    {
        let opened = open_number(self.rules, i, self.list.tag());
        let items = parse_objects(self.rules, self.list, self.alloc, &mut self.f, opened);
        with_list(self.list, items)
    }
}

/// A parser of a SEQUENCE or SET object, which keeps the rules, the type and the parser of all its items.
#[derive(Drop)]
pub struct ListObject<F> {
    rules: Rules,
    list: ListType,
    f: F,
}

impl<F> Model for ListObject<F> {
    ghost use Rattle.der_base.specs.declared.rules.Rules.{Rules};
    ghost use Rattle.der_combinators.specs.declared.list_type.ListType.{ListType};

    ghost Value = { (Rules × ListType) × F };

    ghost view = { λ c. ((c.rules, c.list), c.f) };
}

/// A BER parser of an element with tag number 16, SEQUENCE. `f` reads all items from its content (X.690 8.9).
pub fn parse_ber_sequence_defined<'a, F, E>(f: F) -> ListObject<F>
where
    F: FnMut(&'a [u8]) -> IResult<&'a [u8], Vec<BerObject<'a>>, E>,
    ensures { result ≡ ((Ber, Sequence), f) }
{
    ListObject::new(Rules::Ber, ListType::Sequence, f)
}

/// A BER parser of an element with tag number 17, SET. `f` reads all items from its content (X.690 8.11).
pub fn parse_ber_set_defined<'a, F, E>(f: F) -> ListObject<F>
where
    F: FnMut(&'a [u8]) -> IResult<&'a [u8], Vec<BerObject<'a>>, E>,
    ensures { result ≡ ((Ber, Set), f) }
{
    ListObject::new(Rules::Ber, ListType::Set, f)
}

/// A DER parser of an element with tag number 16, SEQUENCE. `f` reads all items from its content (X.690 8.9).
pub fn parse_der_sequence_defined<'a, F, E>(f: F) -> ListObject<F>
where
    F: FnMut(&'a [u8]) -> IResult<&'a [u8], Vec<BerObject<'a>>, E>,
    ensures { result ≡ ((Der, Sequence), f) }
{
    ListObject::new(Rules::Der, ListType::Sequence, f)
}

/// A DER parser of an element with tag number 17, SET. `f` reads all items from its content (X.690 8.11).
pub fn parse_der_set_defined<'a, F, E>(f: F) -> ListObject<F>
where
    F: FnMut(&'a [u8]) -> IResult<&'a [u8], Vec<BerObject<'a>>, E>,
    ensures { result ≡ ((Der, Set), f) }
{
    ListObject::new(Rules::Der, ListType::Set, f)
}

impl<F> ListObject<F> {
    /// The parser that keeps these.
    fn new(rules: Rules, list: ListType, f: F) -> ListObject<F>
        ensures { result ≡ ((rules, list), f) }
    {
        ListObject { rules, list, f }
    }

    /// Reads as `NumberedContainer::parse`, and calls the kept parser on the content octets alone. Returns the SEQUENCE
    /// or SET of the items, as `BerObject::from_seq` or `BerObject::from_set` makes it.
    #[inline(always)]
    pub fn parse<'a, E>(&mut self, i: &'a [u8]) -> IResult<&'a [u8], BerObject<'a>, E>
    where
        F: FnMut(&'a [u8]) -> IResult<&'a [u8], Vec<BerObject<'a>>, E>,
        E: ParseError<&'a [u8]> + From<BerError>,
        requires { F.IsAlwaysCallable self.old.1 }
        ensures callable { F.IsAlwaysCallable self.new.1 }
        ensures run { Keeps (λ t. NumberRun t.0 (list_number t.1) E.from_error_kind_gives E.from_gives i.now
            (Made (λ _. IsListOf t.1) (OnContent F.step))) self.old result self.new }
    {
        let opened = open_number(self.rules, i, self.list.tag());
        with_list(self.list, parse_list_content(&mut self.f, opened))
    }
}
