//! Visitors that read objects. No function has a default body.
ghost use Rattle.std.specs.Prelude.{ℕ};
ghost use Rattle.std.specs.Option.{option_copied};
ghost use Rattle.der_base.specs.Tree.{Node, Content, end_of_content, boolean, integer, bit_string, string, null};
ghost use Rattle.der_base.specs.Tree.{enumerated, sequence, set, tagged, time};
ghost use Rattle.der_object.specs.View.{tree, content_tree, trees};
ghost use Rattle.der_visit.specs.Visiting.{MeetsObject, oid_content, relative_oid_content, optional_content};
ghost use Rattle.der_visit.specs.Visiting.{unknown_content};

use crate::walk::Walk;
use der_base::any::Any;
use der_base::header::{Class, Tag};
use der_base::oid::Oid;
use der_base::time::ASN1DateTime;
use der_object::{BerObject, BerObjectContent, BitStringObject};

/// [`Visit`](crate::Visit) without default bodies. `walk` of [`Walk`] visits an object, and then each item inside a
/// SEQUENCE or SET, one level deeper. It calls `handle_object` and then the function of the content's type. The
/// functions have the arguments of those of `Visit`.
///
/// `object_step` is what `handle_object` does, and `content_step` what the other functions do. Each is a relation of
/// the visitor before, what is visited, its depth and the visitor after. Each call does its step, so the contract of
/// `walk` says which functions are called, on what and in which order, and leaves none out.
///
/// Each `Visit` is a `Handles`: `handle_null` calls `visit_ber_null`, and so on.
pub trait Handles {
    ghost object_step: { Self → Node → ℕ → Self → Type 0 };

    ghost content_step: { Self → Content → ℕ → Self → Type 0 };

    fn handle_object<'t>(&mut self, object: &BerObject<'t>, depth: usize)
        ensures { object_step self.old (tree object.now) depth self.new };

    fn handle_endofcontent(&mut self, depth: usize)
        ensures { content_step self.old end_of_content depth self.new };

    fn handle_boolean(&mut self, value: bool, depth: usize)
        ensures { content_step self.old (boolean value) depth self.new };

    fn handle_integer<'t>(&mut self, octets: &'t [u8], depth: usize)
        ensures { content_step self.old (integer octets.now) depth self.new };

    fn handle_bitstring<'t>(&mut self, unused: u8, bits: &BitStringObject<'t>, depth: usize)
        ensures { content_step self.old (bit_string unused bits.now.bytes.now) depth self.new };

    fn handle_octetstring<'t>(&mut self, octets: &'t [u8], depth: usize)
        ensures { content_step self.old (string 4 octets.now) depth self.new };

    fn handle_null(&mut self, depth: usize)
        ensures { content_step self.old null depth self.new };

    fn handle_enum(&mut self, number: u64, depth: usize)
        ensures { content_step self.old (enumerated number) depth self.new };

    fn handle_oid<'t>(&mut self, oid: &Oid<'t>, depth: usize)
        ensures { content_step self.old (oid_content oid.now) depth self.new };

    fn handle_relative_oid<'t>(&mut self, oid: &Oid<'t>, depth: usize)
        ensures { content_step self.old (relative_oid_content oid.now) depth self.new };

    fn handle_numericstring<'t>(&mut self, text: &'t str, depth: usize)
        ensures { content_step self.old (string 18 text.now) depth self.new };

    fn handle_visiblestring<'t>(&mut self, text: &'t str, depth: usize)
        ensures { content_step self.old (string 26 text.now) depth self.new };

    fn handle_printablestring<'t>(&mut self, text: &'t str, depth: usize)
        ensures { content_step self.old (string 19 text.now) depth self.new };

    fn handle_ia5string<'t>(&mut self, text: &'t str, depth: usize)
        ensures { content_step self.old (string 22 text.now) depth self.new };

    fn handle_utf8string<'t>(&mut self, text: &'t str, depth: usize)
        ensures { content_step self.old (string 12 text.now) depth self.new };

    fn handle_teletexstring<'t>(&mut self, text: &'t str, depth: usize)
        ensures { content_step self.old (string 20 text.now) depth self.new };

    fn handle_videotextstring<'t>(&mut self, text: &'t str, depth: usize)
        ensures { content_step self.old (string 21 text.now) depth self.new };

    fn handle_objectdescriptor<'t>(&mut self, text: &'t str, depth: usize)
        ensures { content_step self.old (string 7 text.now) depth self.new };

    fn handle_graphicstring<'t>(&mut self, text: &'t str, depth: usize)
        ensures { content_step self.old (string 25 text.now) depth self.new };

    fn handle_generalstring<'t>(&mut self, text: &'t str, depth: usize)
        ensures { content_step self.old (string 27 text.now) depth self.new };

    fn handle_bmpstring<'t>(&mut self, octets: &'t [u8], depth: usize)
        ensures { content_step self.old (string 30 octets.now) depth self.new };

    fn handle_universalstring<'t>(&mut self, octets: &'t [u8], depth: usize)
        ensures { content_step self.old (string 28 octets.now) depth self.new };

    fn handle_sequence<'t>(&mut self, items: &[BerObject<'t>], depth: usize)
        ensures { content_step self.old (sequence (trees items.now)) depth self.new };

    fn handle_set<'t>(&mut self, items: &[BerObject<'t>], depth: usize)
        ensures { content_step self.old (set (trees items.now)) depth self.new };

    fn handle_utctime(&mut self, datetime: &ASN1DateTime, depth: usize)
        ensures { content_step self.old (time 23 datetime.now) depth self.new };

    fn handle_generalizedtime(&mut self, datetime: &ASN1DateTime, depth: usize)
        ensures { content_step self.old (time 24 datetime.now) depth self.new };

    fn handle_optional<'t>(&mut self, object: Option<&BerObject<'t>>, depth: usize)
        ensures { content_step self.old (optional_content (option_copied object.entry)) depth self.new };

    fn handle_tagged<'t>(&mut self, class: Class, tag: Tag, object: &BerObject<'t>, depth: usize)
        ensures { content_step self.old (tagged class tag.0 (tree object.now)) depth self.new };

    fn handle_unknown<'t>(&mut self, any: &Any<'t>, depth: usize)
        ensures { content_step self.old (unknown_content any.now) depth self.new };
}

/// Each step of the walk is `handle_object`, and then the function of the content's type.
impl<H: Handles> Walk for H {
    ghost step = { MeetsObject H.object_step H.content_step };

    #[inline]
    fn visit_object<'t>(&mut self, object: &BerObject<'t>, depth: usize) {
        self.handle_object(object, depth);
        handle_content(self, &object.content, depth);
    }
}

/// Calls the function of the content's type.
#[inline]
#[tactic(auto, using(der_object::proofs::Trees::sequence_tree, der_object::proofs::Trees::set_tree))]
fn handle_content<H: Handles>(visitor: &mut H, content: &BerObjectContent<'_>, depth: usize)
    ensures { H.content_step visitor.old (content_tree content.now) depth visitor.new }
{
    match content {
        BerObjectContent::EndOfContent => visitor.handle_endofcontent(depth),
        BerObjectContent::Boolean(value) => visitor.handle_boolean(*value, depth),
        BerObjectContent::Integer(octets) => visitor.handle_integer(octets, depth),
        BerObjectContent::BitString(unused, bits) => {
            visitor.handle_bitstring(*unused, bits, depth)
        }
        BerObjectContent::OctetString(octets) => visitor.handle_octetstring(octets, depth),
        BerObjectContent::Null => visitor.handle_null(depth),
        BerObjectContent::Enum(number) => visitor.handle_enum(*number, depth),
        BerObjectContent::OID(oid) => visitor.handle_oid(oid, depth),
        BerObjectContent::RelativeOID(oid) => visitor.handle_relative_oid(oid, depth),
        BerObjectContent::NumericString(text) => visitor.handle_numericstring(text, depth),
        BerObjectContent::VisibleString(text) => visitor.handle_visiblestring(text, depth),
        BerObjectContent::PrintableString(text) => visitor.handle_printablestring(text, depth),
        BerObjectContent::IA5String(text) => visitor.handle_ia5string(text, depth),
        BerObjectContent::UTF8String(text) => visitor.handle_utf8string(text, depth),
        BerObjectContent::T61String(text) => visitor.handle_teletexstring(text, depth),
        BerObjectContent::VideotexString(text) => visitor.handle_videotextstring(text, depth),
        BerObjectContent::ObjectDescriptor(text) => visitor.handle_objectdescriptor(text, depth),
        BerObjectContent::GraphicString(text) => visitor.handle_graphicstring(text, depth),
        BerObjectContent::GeneralString(text) => visitor.handle_generalstring(text, depth),
        BerObjectContent::BmpString(octets) => visitor.handle_bmpstring(octets, depth),
        BerObjectContent::UniversalString(octets) => {
            visitor.handle_universalstring(octets, depth)
        }
        BerObjectContent::Sequence(items) => visitor.handle_sequence(items, depth),
        BerObjectContent::Set(items) => visitor.handle_set(items, depth),
        BerObjectContent::UTCTime(time) => visitor.handle_utctime(time, depth),
        BerObjectContent::GeneralizedTime(time) => visitor.handle_generalizedtime(time, depth),
        BerObjectContent::Optional(Some(inner)) => visitor.handle_optional(Some(inner), depth),
        BerObjectContent::Optional(None) => visitor.handle_optional(None, depth),
        BerObjectContent::Tagged(class, tag, inner) => {
            visitor.handle_tagged(*class, *tag, inner, depth)
        }
        BerObjectContent::Unknown(any) => visitor.handle_unknown(any, depth),
    }
}
