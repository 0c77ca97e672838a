//! Combinators for explicit and implicit tags (X.690 8.14), which keep the rules, the tag number and the caller's
//! parser, and for optional objects.
ghost use Rattle.std.specs.Prelude.{◌≡◌};
ghost use Rattle.der_base.specs.declared.rules.Rules.TheVariants.{Ber, Der};
ghost use Rattle.der_base.specs.Containers.{ExplicitRun, Keeps, LetsGo, MadeInMemory, NumberRun};
ghost use Rattle.der_base.specs.Containers.{OnContent, OnImplicit};
ghost use Rattle.der_object.specs.Combined.{IsTagged, MakesObject, OptionalRun};

use crate::opening::{open_explicit, open_number, parse_content, parse_implicit_content};
use crate::wrapping::{may_be_absent, parse_object_content, parse_tagged_content};
use der_base::error::{BerError, IResult, ParseError};
use der_base::header::{Header, Tag};
use der_base::rules::Rules;
use der_object::{BerObject, BerObjectContent};
use std::alloc::Global;
use std::marker::Model;

/// A parser of an element inside an explicit tag, which keeps the rules, the tag number and the
/// parser of its content.
#[derive(Drop)]
pub struct ExplicitContainer<F> {
    rules: Rules,
    tag: Tag,
    f: F,
}

impl<F> Model for ExplicitContainer<F> {
    ghost use Rattle.std.specs.Prelude.{ℕ};
    ghost use Rattle.der_base.specs.declared.rules.Rules.{Rules};

    ghost Value = { (Rules × ℕ) × F };

    ghost view = { λ c. ((c.rules, c.tag.0), c.f) };
}

/// A BER parser of an explicit tag of this number (X.690 8.14.2). `f` gets its content and header.
pub fn parse_ber_tagged_explicit_g<'a, F, O, E>(tag: Tag, f: F) -> ExplicitContainer<F>
where
    F: FnMut(&'a [u8], Header<'a>) -> IResult<&'a [u8], O, E>,
    ensures { result ≡ ((Ber, tag.0), f) }
{
    ExplicitContainer::new(Rules::Ber, tag, f)
}

/// A DER parser of an explicit tag of this number (X.690 8.14.2). `f` gets its content and header.
///
/// ```
/// let (rest, number) = parse_der_tagged_explicit_g(Tag(0), number_inside).parse(input)?;
///
/// fn number_inside<'a>(content: &'a [u8], _header: Header<'a>) -> IResult<&'a [u8], u32, BerError> {
///     parse_der_u32(content)
/// }
/// ```
pub fn parse_der_tagged_explicit_g<'a, F, O, E>(tag: Tag, f: F) -> ExplicitContainer<F>
where
    F: FnMut(&'a [u8], Header<'a>) -> IResult<&'a [u8], O, E>,
    ensures { result ≡ ((Der, tag.0), f) }
{
    ExplicitContainer::new(Rules::Der, tag, f)
}

impl<F> ExplicitContainer<F> {
    /// The parser that keeps these.
    fn new(rules: Rules, tag: Tag, f: F) -> ExplicitContainer<F>
        ensures { result ≡ ((rules, tag.0), f) }
    {
        ExplicitContainer { rules, tag, f }
    }

    /// Reads an explicit tag of the number as `Container::parse`: constructed, and of any class but Universal.
    ///
    /// Errors, without a call of the parser, after those of `Container::parse` and in this order: UnexpectedClass for
    /// class Universal; UnexpectedTag for another number; ConstructExpected for a primitive encoding.
    #[inline(always)]
    pub fn parse<'a, O, E>(&mut self, i: &'a [u8]) -> IResult<&'a [u8], O, E>
    where
        F: FnMut(&'a [u8], Header<'a>) -> IResult<&'a [u8], O, E>,
        E: ParseError<&'a [u8]> + From<BerError>,
        requires { F.IsAlwaysCallable self.old.1 }
        ensures callable { F.IsAlwaysCallable self.new.1 }
        ensures run { Keeps (λ t. ExplicitRun t.0 t.1 E.from_error_kind_gives E.from_gives i.now F.step)
            self.old result self.new }
    {
        parse_content(&mut self.f, open_explicit(self.rules, i, self.tag))
    }
}

/// A parser of an element under an implicit tag, which keeps the rules, the tag number and the
/// parser of its content.
#[derive(Drop)]
pub struct ImplicitContainer<F> {
    rules: Rules,
    tag: Tag,
    f: F,
}

impl<F> Model for ImplicitContainer<F> {
    ghost use Rattle.std.specs.Prelude.{ℕ};
    ghost use Rattle.der_base.specs.declared.rules.Rules.{Rules};

    ghost Value = { (Rules × ℕ) × F };

    ghost view = { λ c. ((c.rules, c.tag.0), c.f) };
}

/// A BER parser of an element under an implicit tag of this number (X.690 8.14.3). `f` gets its content, its header and
/// the depth `MAX_RECURSION`.
pub fn parse_ber_tagged_implicit_g<'a, F, O, E>(tag: Tag, f: F) -> ImplicitContainer<F>
where
    F: FnMut(&'a [u8], Header<'a>, usize) -> IResult<&'a [u8], O, E>,
    ensures { result ≡ ((Ber, tag.0), f) }
{
    ImplicitContainer::new(Rules::Ber, tag, f)
}

/// A DER parser of an element under an implicit tag of this number (X.690 8.14.3). `f` gets its content, its header and
/// the depth `MAX_RECURSION`.
pub fn parse_der_tagged_implicit_g<'a, F, O, E>(tag: Tag, f: F) -> ImplicitContainer<F>
where
    F: FnMut(&'a [u8], Header<'a>, usize) -> IResult<&'a [u8], O, E>,
    ensures { result ≡ ((Der, tag.0), f) }
{
    ImplicitContainer::new(Rules::Der, tag, f)
}

impl<F> ImplicitContainer<F> {
    /// The parser that keeps these.
    fn new(rules: Rules, tag: Tag, f: F) -> ImplicitContainer<F>
        ensures { result ≡ ((rules, tag.0), f) }
    {
        ImplicitContainer { rules, tag, f }
    }

    /// Reads an element of the number, of any class, primitive or constructed, as `Container::parse`. The parser may
    /// read the content octets as those of the type under the tag: it gets the header with their number as the definite
    /// length.
    ///
    /// Another number is UnexpectedTag, after the errors of `Container::parse`, without a call of the parser.
    #[inline(always)]
    pub fn parse<'a, O, E>(&mut self, i: &'a [u8]) -> IResult<&'a [u8], O, E>
    where
        F: FnMut(&'a [u8], Header<'a>, usize) -> IResult<&'a [u8], O, E>,
        E: ParseError<&'a [u8]> + From<BerError>,
        requires { F.IsAlwaysCallable self.old.1 }
        ensures callable { F.IsAlwaysCallable self.new.1 }
        ensures run { Keeps (λ t. NumberRun t.0 t.1 E.from_error_kind_gives E.from_gives i.now
            (OnImplicit F.step)) self.old result self.new }
    {
        parse_implicit_content(&mut self.f, open_number(self.rules, i, self.tag))
    }
}

/// A parser of an object inside an explicit tag, which keeps the rules, the tag number and the
/// parser of the object.
#[derive(Drop)]
pub struct ExplicitObject<F> {
    rules: Rules,
    tag: Tag,
    f: F,
    alloc: Global,
}

impl<F> Model for ExplicitObject<F> {
    ghost use Rattle.std.specs.Prelude.{ℕ};
    ghost use Rattle.der_base.specs.declared.rules.Rules.{Rules};

    ghost Value = { (Rules × ℕ) × F };

    ghost view = { λ c. ((c.rules, c.tag.0), c.f) };
}

/// A BER parser of an object inside an explicit tag of this number (X.690 8.14.2). `f` reads the object.
pub fn parse_ber_tagged_explicit<'a, F, E>(alloc: Global, tag: Tag, f: F) -> ExplicitObject<F>
where
    F: FnMut(&'a [u8]) -> IResult<&'a [u8], BerObject<'a>, E>,
    ensures { result ≡ ((Ber, tag.0), f) }
{
    ExplicitObject::new(Rules::Ber, tag, f, alloc)
}

/// A DER parser of an object inside an explicit tag of this number (X.690 8.14.2). `f` reads the object.
pub fn parse_der_tagged_explicit<'a, F, E>(alloc: Global, tag: Tag, f: F) -> ExplicitObject<F>
where
    F: FnMut(&'a [u8]) -> IResult<&'a [u8], BerObject<'a>, E>,
    ensures { result ≡ ((Der, tag.0), f) }
{
    ExplicitObject::new(Rules::Der, tag, f, alloc)
}

impl<F> ExplicitObject<F> {
    /// The parser that keeps these.
    fn new(rules: Rules, tag: Tag, f: F, alloc: Global) -> ExplicitObject<F>
        ensures { result ≡ ((rules, tag.0), f) }
    {
        ExplicitObject {
            rules,
            tag,
            f,
            alloc,
        }
    }

    /// Reads as `ExplicitContainer::parse`, and calls the kept parser on the content octets alone. Returns the content
    /// `Tagged`, with the tag's class and number and the object in a box, under the header of the tag. The box may run
    /// out of memory, after the call of the parser.
    #[inline(always)]
    pub fn parse<'a, E>(&mut self, i: &'a [u8]) -> IResult<&'a [u8], BerObject<'a>, E>
    where
        F: FnMut(&'a [u8]) -> IResult<&'a [u8], BerObject<'a>, E>,
        E: ParseError<&'a [u8]> + From<BerError>,
        requires { F.IsAlwaysCallable self.old.1 }
        ensures callable { F.IsAlwaysCallable self.new.1 }
        ensures run { Keeps (λ t. ExplicitRun t.0 t.1 E.from_error_kind_gives E.from_gives i.now
            (MadeInMemory IsTagged (OnContent F.step))) self.old result self.new }
    {
        parse_tagged_content(
            self.alloc,
            &mut self.f,
            open_explicit(self.rules, i, self.tag),
        )
    }
}

/// A parser of an object under an implicit tag, which keeps the rules, the tag number and the
/// parser of its content.
#[derive(Drop)]
pub struct ImplicitObject<F> {
    rules: Rules,
    tag: Tag,
    f: F,
}

impl<F> Model for ImplicitObject<F> {
    ghost use Rattle.std.specs.Prelude.{ℕ};
    ghost use Rattle.der_base.specs.declared.rules.Rules.{Rules};

    ghost Value = { (Rules × ℕ) × F };

    ghost view = { λ c. ((c.rules, c.tag.0), c.f) };
}

/// A BER parser of an object under an implicit tag of this number (X.690 8.14.3). `f` reads its content, and gets the
/// content octets, the header and the depth `MAX_RECURSION`.
pub fn parse_ber_tagged_implicit<'a, F, E>(tag: Tag, f: F) -> ImplicitObject<F>
where
    F: FnMut(&'a [u8], &Header<'a>, usize) -> IResult<&'a [u8], BerObjectContent<'a>, E>,
    ensures { result ≡ ((Ber, tag.0), f) }
{
    ImplicitObject::new(Rules::Ber, tag, f)
}

/// A DER parser of an object under an implicit tag of this number (X.690 8.14.3). `f` reads its content, and gets the
/// content octets, the header and the depth `MAX_RECURSION`.
pub fn parse_der_tagged_implicit<'a, F, E>(tag: Tag, f: F) -> ImplicitObject<F>
where
    F: FnMut(&'a [u8], &Header<'a>, usize) -> IResult<&'a [u8], BerObjectContent<'a>, E>,
    ensures { result ≡ ((Der, tag.0), f) }
{
    ImplicitObject::new(Rules::Der, tag, f)
}

impl<F> ImplicitObject<F> {
    /// The parser that keeps these.
    fn new(rules: Rules, tag: Tag, f: F) -> ImplicitObject<F>
        ensures { result ≡ ((rules, tag.0), f) }
    {
        ImplicitObject { rules, tag, f }
    }

    /// Reads as `ImplicitContainer::parse`. Returns the object with the content that the kept parser returns, under the
    /// header that the parser gets.
    #[inline(always)]
    pub fn parse<'a, E>(&mut self, i: &'a [u8]) -> IResult<&'a [u8], BerObject<'a>, E>
    where
        F: FnMut(&'a [u8], &Header<'a>, usize) -> IResult<&'a [u8], BerObjectContent<'a>, E>,
        E: ParseError<&'a [u8]> + From<BerError>,
        requires { F.IsAlwaysCallable self.old.1 }
        ensures callable { F.IsAlwaysCallable self.new.1 }
        ensures run { Keeps (λ t. NumberRun t.0 t.1 E.from_error_kind_gives E.from_gives i.now
            (OnImplicit (MakesObject F.step))) self.old result self.new }
    {
        parse_object_content(&mut self.f, open_number(self.rules, i, self.tag))
    }
}

/// Reads by BER an object under an implicit tag of this number (X.690 8.14.3), as `ImplicitObject::parse` with the
/// parser `f`.
pub fn parse_ber_implicit<'a, F, E>(
    i: &'a [u8],
    tag: Tag,
    mut f: F,
) -> IResult<&'a [u8], BerObject<'a>, E>
where
    F: FnMut(&'a [u8], &Header<'a>, usize) -> IResult<&'a [u8], BerObjectContent<'a>, E> + Drop,
    E: ParseError<&'a [u8]> + From<BerError>,
    requires { F.IsAlwaysCallable f }
    ensures { LetsGo (NumberRun Ber tag.0 E.from_error_kind_gives E.from_gives i.now
        (OnImplicit (MakesObject F.step))) f result }
{
    parse_object_content(&mut f, open_number(Rules::Ber, i, tag))
}

/// Reads by DER an object under an implicit tag of this number (X.690 8.14.3), as `ImplicitObject::parse` with the
/// parser `f`.
pub fn parse_der_implicit<'a, F, E>(
    i: &'a [u8],
    tag: Tag,
    mut f: F,
) -> IResult<&'a [u8], BerObject<'a>, E>
where
    F: FnMut(&'a [u8], &Header<'a>, usize) -> IResult<&'a [u8], BerObjectContent<'a>, E> + Drop,
    E: ParseError<&'a [u8]> + From<BerError>,
    requires { F.IsAlwaysCallable f }
    ensures { LetsGo (NumberRun Der tag.0 E.from_error_kind_gives E.from_gives i.now
        (OnImplicit (MakesObject F.step))) f result }
{
    parse_object_content(&mut f, open_number(Rules::Der, i, tag))
}

/// A parser of an optional object, which keeps the parser of the object.
#[derive(Drop)]
pub struct OptionalObject<F> {
    f: F,
    alloc: Global,
}

impl<F> Model for OptionalObject<F> {
    ghost Value = { F };

    ghost view = { λ c. c.f };
}

/// A parser of an optional object, which `f` reads.
pub fn parse_ber_optional<'a, F, E>(alloc: Global, f: F) -> OptionalObject<F>
where
    F: FnMut(&'a [u8]) -> IResult<&'a [u8], BerObject<'a>, E>,
    ensures { result ≡ f }
{
    OptionalObject { f, alloc }
}

impl<F> OptionalObject<F> {
    /// Calls the kept parser once, on `i`. Returns its object as the content `Optional`, in a box, under the object's
    /// header. If the parser returns Incomplete, an Error or a Failure, the object is absent: the content is
    /// `Optional(None)`, as `BerObject::from_obj` makes it, and all of `i` is left. OutOfMemory of the parser is
    /// returned, and the box may run out of memory.
    pub fn parse<'a, E>(&mut self, i: &'a [u8]) -> IResult<&'a [u8], BerObject<'a>, E>
    where
        F: FnMut(&'a [u8]) -> IResult<&'a [u8], BerObject<'a>, E>,
        E: Drop,
        requires { F.IsAlwaysCallable self.old }
        ensures callable { F.IsAlwaysCallable self.new }
        ensures run { OptionalRun F.step i.now self.old result self.new }
    {
        may_be_absent(self.alloc, i, (self.f)(i))
    }
}

/// Reads by BER an optional object inside an explicit tag of this number (X.690 8.14.2): `OptionalObject::parse` with
/// `ExplicitObject::parse` as the kept parser. If the tag is another one or is rejected, the object is absent and `f`
/// isn't called.
pub fn parse_ber_explicit_optional<'a, F, E>(
    alloc: Global,
    i: &'a [u8],
    tag: Tag,
    mut f: F,
) -> IResult<&'a [u8], BerObject<'a>, E>
where
    F: FnMut(&'a [u8]) -> IResult<&'a [u8], BerObject<'a>, E> + Drop,
    E: ParseError<&'a [u8]> + From<BerError> + Drop,
    requires { F.IsAlwaysCallable f }
    ensures { LetsGo (OptionalRun (λ f p. ExplicitRun Ber tag.0 E.from_error_kind_gives E.from_gives p.now
        (MadeInMemory IsTagged (OnContent F.step)) f) i.now) f result }
{
    may_be_absent(
        alloc,
        i,
        parse_tagged_content(alloc, &mut f, open_explicit(Rules::Ber, i, tag)),
    )
}

/// Reads by DER an optional object inside an explicit tag of this number (X.690 8.14.2): `OptionalObject::parse` with
/// `ExplicitObject::parse` as the kept parser. If the tag is another one or is rejected, the object is absent and `f`
/// isn't called.
pub fn parse_der_explicit_optional<'a, F, E>(
    alloc: Global,
    i: &'a [u8],
    tag: Tag,
    mut f: F,
) -> IResult<&'a [u8], BerObject<'a>, E>
where
    F: FnMut(&'a [u8]) -> IResult<&'a [u8], BerObject<'a>, E> + Drop,
    E: ParseError<&'a [u8]> + From<BerError> + Drop,
    requires { F.IsAlwaysCallable f }
    ensures { LetsGo (OptionalRun (λ f p. ExplicitRun Der tag.0 E.from_error_kind_gives E.from_gives p.now
        (MadeInMemory IsTagged (OnContent F.step)) f) i.now) f result }
{
    may_be_absent(
        alloc,
        i,
        parse_tagged_content(alloc, &mut f, open_explicit(Rules::Der, i, tag)),
    )
}
