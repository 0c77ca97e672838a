//! Search filters of LDAP (RFC 4511 4.5.1.7) as RFC 4515 writes them.
ghost use Rattle.std.specs.Prelude.{◌≡◌, IfOk, Some};
ghost use Rattle.std.specs.Fmt.{DisplaysOnOk};
ghost use Rattle.der_base.specs.Pretty.{hex_pair};
ghost use Rattle.der_print.specs.Writes.{WritesOne};
ghost use Rattle.messages.specs.Ldap.Filters.{filter_of};
ghost use Rattle.type_words.specs.Filters.{IsFilter, IsFilterText, assertion_text, comparison_text, connective_text};
ghost use Rattle.type_words.specs.Filters.{extensible_text, filter_text, flag_text, is_normal, is_special, octet_text};
ghost use Rattle.type_words.specs.Filters.{pair_text, part_text, pieces_text, present_text, relation_text};
ghost use Rattle.type_words.specs.Filters.{star_before, star_unless_final, star_unless_initial, substrings_text};

use der_base::error::Err as Refused;
use der_base::rules::Rules;
use der_cursor::Cursor;
use messages::ldap::{Connective, FilterPart, Piece, Place, Relation, read_search_filter};
use std::alloc::{AllocError, Global};
use std::fmt;

/// Writes the text of the filter that octets begin with by BER, or nothing if they begin with none. An error too if
/// there is no memory.
pub(crate) fn write_filter<W: fmt::Write>(
    f: &mut fmt::Formatter<W>,
    alloc: Global,
    octets: &[u8],
) -> fmt::Result
    ensures { WritesOne W.Write.write_str_gives f.old result (IsFilterText octets.now) f.new }
{
    match read_filter(alloc, octets) {
        Ok(parts) => write_parts(f, parts.as_slice()),
        Err(_) => Err(fmt::Error),
    }
}

/// The parts of the filter that octets begin with by BER, or none if they begin with none.
fn read_filter(alloc: Global, octets: &[u8]) -> Result<Vec<FilterPart<'_>>, AllocError>
    ensures { IfOk result (λ parts. IsFilter octets.now (filter_of parts.items)) }
{
    let mut ahead = Cursor::by(Rules::Ber, octets);
    match read_search_filter(alloc, &mut ahead) {
        Ok(parts) => Ok(parts),
        Err(refusal) => match refusal.reason {
            Refused::OutOfMemory => Err(AllocError),
            _ => Ok(Vec::new(alloc)),
        },
    }
}

/// Writes the parts of a filter.
fn write_parts<W: fmt::Write>(f: &mut fmt::Formatter<W>, parts: &[FilterPart<'_>]) -> fmt::Result
    ensures { DisplaysOnOk W.Write.write_str_gives f.old result (Some (filter_text parts.now)) f.new }
{
    for part in parts {
        write_part(f, part)?;
    }
    Ok(())
}

/// Writes a part of a filter.
fn write_part<W: fmt::Write>(f: &mut fmt::Formatter<W>, part: &FilterPart<'_>) -> fmt::Result
    ensures { DisplaysOnOk W.Write.write_str_gives f.old result (Some (part_text part.now)) f.new }
{
    match part {
        FilterPart::Open(connective) => write_connective(f, *connective),
        FilterPart::Close => f.write_str(")"),
        FilterPart::Comparison {
            relation,
            attribute,
            value,
        } => write_comparison(f, *relation, attribute, value),
        FilterPart::Substrings { attribute, pieces } => {
            write_substrings(f, attribute, pieces.as_slice())
        }
        FilterPart::Present(attribute) => write_present(f, attribute),
        FilterPart::Extensible {
            rule,
            attribute,
            value,
            name_attributes,
        } => write_extensible(f, *rule, *attribute, value, *name_attributes),
    }
}

/// Writes the start of a connective.
fn write_connective<W: fmt::Write>(f: &mut fmt::Formatter<W>, connective: Connective) -> fmt::Result
    ensures { DisplaysOnOk W.Write.write_str_gives f.old result (Some (connective_text connective)) f.new }
{
    f.write_str(connective_text(connective))
}

/// Writes an attribute and the value to compare it with.
fn write_comparison<W: fmt::Write>(
    f: &mut fmt::Formatter<W>,
    relation: Relation,
    attribute: &[u8],
    value: &[u8],
) -> fmt::Result
    ensures { DisplaysOnOk W.Write.write_str_gives f.old result
        (Some (comparison_text relation attribute.now value.now)) f.new }
{
    let relation = relation_text(relation);
    let attribute = Assertion(attribute);
    let value = Assertion(value);
    write!(f, "({attribute}{relation}{value})")
}

/// Writes an attribute and the pieces of its value.
fn write_substrings<W: fmt::Write>(
    f: &mut fmt::Formatter<W>,
    attribute: &[u8],
    pieces: &[Piece<'_>],
) -> fmt::Result
    ensures { DisplaysOnOk W.Write.write_str_gives f.old result
        (Some (substrings_text attribute.now pieces.now)) f.new }
{
    let attribute = Assertion(attribute);
    let pieces = PiecesText(pieces);
    write!(f, "({attribute}={pieces})")
}

/// Writes an attribute that an entry must have.
fn write_present<W: fmt::Write>(f: &mut fmt::Formatter<W>, attribute: &[u8]) -> fmt::Result
    ensures { DisplaysOnOk W.Write.write_str_gives f.old result (Some (present_text attribute.now)) f.new }
{
    let attribute = Assertion(attribute);
    write!(f, "({attribute}=*)")
}

/// Writes a match by a matching rule.
fn write_extensible<W: fmt::Write>(
    f: &mut fmt::Formatter<W>,
    rule: Option<&[u8]>,
    attribute: Option<&[u8]>,
    value: &[u8],
    flag: Option<bool>,
) -> fmt::Result
    ensures { DisplaysOnOk W.Write.write_str_gives f.old result
        (Some (extensible_text rule.entry attribute.entry value.now flag)) f.new }
{
    let attribute = NameText(attribute);
    let flag = flag_text(flag);
    let rule = RuleText(rule);
    let value = Assertion(value);
    write!(f, "({attribute}{flag}{rule}:={value})")
}

/// The sign of a connective.
fn connective_text(connective: Connective) -> &'static str
    ensures { result.now ≡ connective_text connective }
{
    match connective {
        Connective::And => "(&",
        Connective::Or => "(|",
        Connective::Not => "(!",
    }
}

/// The sign between an attribute and a value.
fn relation_text(relation: Relation) -> &'static str
    ensures { result.now ≡ relation_text relation }
{
    match relation {
        Relation::Equal => "=",
        Relation::GreaterOrEqual => ">=",
        Relation::LessOrEqual => "<=",
        Relation::Approximate => "~=",
    }
}

/// The mark if attributes of the entry's name match too.
fn flag_text(flag: Option<bool>) -> &'static str
    ensures { result.now ≡ flag_text flag }
{
    match flag {
        Some(true) => ":dn",
        Some(false) => "",
        None => "",
    }
}

/// The attribute of a match by a matching rule, if there is one.
#[derive(Clone, Copy)]
struct NameText<'a>(Option<&'a [u8]>);

impl fmt::Display for NameText<'_> {
    ghost use Rattle.std.specs.Prelude.{Some};
    ghost use Rattle.type_words.specs.Filters.{name_text};

    ghost output = { λ x. Some (name_text x.0) };

    fn fmt<W: fmt::Write>(&self, f: &mut fmt::Formatter<W>) -> fmt::Result {
        match self.0 {
            Some(attribute) => write_assertion(f, attribute),
            None => Ok(()),
        }
    }
}

/// The matching rule, if there is one.
#[derive(Clone, Copy)]
struct RuleText<'a>(Option<&'a [u8]>);

impl fmt::Display for RuleText<'_> {
    ghost use Rattle.std.specs.Prelude.{Some};
    ghost use Rattle.type_words.specs.Filters.{rule_text};

    ghost output = { λ x. Some (rule_text x.0) };

    fn fmt<W: fmt::Write>(&self, f: &mut fmt::Formatter<W>) -> fmt::Result {
        match self.0 {
            Some(rule) => {
                let rule = Assertion(rule);
                write!(f, ":{rule}")
            }
            None => Ok(()),
        }
    }
}

/// The pieces of a value, with asterisks around and between them.
#[derive(Clone, Copy)]
struct PiecesText<'r, 'a>(&'r [Piece<'a>]);

impl fmt::Display for PiecesText<'_, '_> {
    ghost use Rattle.std.specs.Prelude.{◌++◌, Some};
    ghost use Rattle.type_words.specs.Filters.{pieces_text, star_before};

    ghost output = { λ x. Some (star_before x.0.now ++ pieces_text x.0.now) };

    fn fmt<W: fmt::Write>(&self, f: &mut fmt::Formatter<W>) -> fmt::Result {
        let star = star_before(self.0);
        write!(f, "{star}")?;
        write_pieces(f, self.0)
    }
}

/// The asterisk before the first piece.
#[tactic(auto, using(crate::proofs::FilterTexts::first_star, crate::proofs::FilterTexts::no_first))]
fn star_before(pieces: &[Piece<'_>]) -> &'static str
    ensures { result.now ≡ star_before pieces.now }
{
    match pieces {
        [first, ..] => star_unless_initial(first.place),
        [] => "*",
    }
}

/// The asterisk before the first piece, by its position.
fn star_unless_initial(place: Place) -> &'static str
    ensures { result.now ≡ star_unless_initial place }
{
    match place {
        Place::Initial => "",
        Place::Any => "*",
        Place::Final => "*",
    }
}

/// The asterisk after a piece, by its position.
fn star_unless_final(place: Place) -> &'static str
    ensures { result.now ≡ star_unless_final place }
{
    match place {
        Place::Initial => "*",
        Place::Any => "*",
        Place::Final => "",
    }
}

/// Writes pieces, and the asterisks after them.
fn write_pieces<W: fmt::Write>(f: &mut fmt::Formatter<W>, pieces: &[Piece<'_>]) -> fmt::Result
    ensures { DisplaysOnOk W.Write.write_str_gives f.old result (Some (pieces_text pieces.now)) f.new }
{
    for piece in pieces {
        let text = PieceText(*piece);
        write!(f, "{text}")?;
    }
    Ok(())
}

/// A piece, and the asterisk after it.
#[derive(Clone, Copy)]
struct PieceText<'a>(Piece<'a>);

impl fmt::Display for PieceText<'_> {
    ghost use Rattle.std.specs.Prelude.{Some};
    ghost use Rattle.type_words.specs.Filters.{piece_text};

    ghost output = { λ x. Some (piece_text x.0) };

    fn fmt<W: fmt::Write>(&self, f: &mut fmt::Formatter<W>) -> fmt::Result {
        let value = Assertion(self.0.value);
        let star = star_unless_final(self.0.place);
        write!(f, "{value}{star}")
    }
}

/// A value, an attribute or a rule.
#[derive(Clone, Copy)]
struct Assertion<'a>(&'a [u8]);

impl fmt::Display for Assertion<'_> {
    ghost use Rattle.std.specs.Prelude.{Some};
    ghost use Rattle.type_words.specs.Filters.{assertion_text};

    ghost output = { λ x. Some (assertion_text x.0.now) };

    fn fmt<W: fmt::Write>(&self, f: &mut fmt::Formatter<W>) -> fmt::Result {
        write_assertion(f, self.0)
    }
}

/// Writes a value, an attribute or a rule.
fn write_assertion<W: fmt::Write>(f: &mut fmt::Formatter<W>, octets: &[u8]) -> fmt::Result
    ensures { DisplaysOnOk W.Write.write_str_gives f.old result (Some (assertion_text octets.now)) f.new }
{
    for octet in octets {
        write_octet(f, *octet)?;
    }
    Ok(())
}

/// Writes an octet, escaped unless it is a normal character.
fn write_octet<W: fmt::Write>(f: &mut fmt::Formatter<W>, octet: u8) -> fmt::Result
    ensures { DisplaysOnOk W.Write.write_str_gives f.old result (Some (octet_text octet)) f.new }
{
    if is_normal(octet) {
        return f.write_char(char::from(octet));
    }
    write_pair(f, octet)
}

/// Returns whether an octet is printable ASCII without a meaning in filters.
fn is_normal(octet: u8) -> bool
    ensures { result ≡ is_normal octet }
{
    octet >= b' ' && octet <= b'~' && !is_special(octet)
}

/// Returns whether an octet has a meaning in filters.
fn is_special(octet: u8) -> bool
    ensures { result ≡ is_special octet }
{
    matches!(octet, 0x28 | 0x29 | 0x2a | 0x5c)
}

/// Writes a backslash and an octet in two hexadecimal digits.
fn write_pair<W: fmt::Write>(f: &mut fmt::Formatter<W>, octet: u8) -> fmt::Result
    ensures { DisplaysOnOk W.Write.write_str_gives f.old result (Some (pair_text octet)) f.new }
{
    f.write_str("\\")?;
    write_hex(f, octet)
}

/// Writes an octet in two hexadecimal digits.
fn write_hex<W: fmt::Write>(f: &mut fmt::Formatter<W>, octet: u8) -> fmt::Result
    ensures { DisplaysOnOk W.Write.write_str_gives f.old result (Some (hex_pair octet)) f.new }
{
    write!(f, "{octet:02x}")
}
