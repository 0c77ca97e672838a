//! Visitors that may change objects.
ghost use Rattle.std.specs.Prelude.{ℕ, ◌≤◌};
ghost use Rattle.der_base.specs.Tree.{Node, Content, end_of_content, boolean, integer, bit_string, string, null};
ghost use Rattle.der_base.specs.Tree.{enumerated, sequence, set, tagged, time};
ghost use Rattle.der_base.specs.Tree.{height, list_height};
ghost use Rattle.der_object.specs.View.{tree, trees};
ghost use Rattle.der_visit.specs.Changing.{QuietlyChanges, ChangesNode, ChangesObject};
ghost use Rattle.der_visit.specs.Visiting.{oid_content, relative_oid_content, boxed_content, unknown_content};

use crate::handles_mut::HandlesMut;
use crate::walk_mut::walk_object;
use der_base::any::Any;
use der_base::header::{Class, Tag};
use der_base::oid::Oid;
use der_base::time::ASN1DateTime;
use der_object::{BerObject, BitStringObject};

/// A visitor that may change what it visits, with a function for any object and one for each type of content. At an
/// object, `run` calls `visit_ber_mut`, and then the function of the type that its content has now. It does the same at
/// each item that a SEQUENCE or SET has then, one level deeper. Each function has an empty default body.
///
/// `object_step` is what `visit_ber_mut` does, and `content_step` what the other functions do. Each is a relation of
/// the visitor before, what is visited, its depth, the visitor after, and what is visited after. A function does what
/// its relation says or changes nothing, as an empty body does.
///
/// `visit_ber_mut` must not make an object deeper, nor the functions of SEQUENCE and SET a list, so each visit ends.
/// The contract of `run` allows that a function changes nothing at an object. [`HandlesMut`] has the same functions
/// without default bodies, and [`WalkMut`](crate::WalkMut) has one, so their contracts exclude that. Each `VisitMut` is
/// a `HandlesMut`, each `HandlesMut` is a `WalkMut`, and `run` is that walk.
pub trait VisitMut {
    ghost object_step: { Self → Node → ℕ → Self → Node → Type 0 } = { λ _ _ _ _ _. ⊥ };

    ghost content_step: { Self → Content → ℕ → Self → Content → Type 0 } = { λ _ _ _ _ _. ⊥ };

    /// Any object, before the function of its content's type. It must not become deeper.
    fn visit_ber_mut<'t>(&mut self, object: &mut BerObject<'t>, depth: usize)
        ensures step { QuietlyChanges object_step self.old (tree object.old) depth self.new (tree object.new) }
        ensures no_higher { height (tree object.new) ≤ height (tree object.old) }
    {}

    /// The type of tag number 0, which ends an indefinite length (X.690 8.1.5).
    fn visit_ber_endofcontent_mut(&mut self, depth: usize)
        ensures { QuietlyChanges content_step self.old end_of_content depth self.new end_of_content }
    {}

    /// BOOLEAN (8.2).
    fn visit_ber_boolean_mut(&mut self, value: &mut bool, depth: usize)
        ensures { QuietlyChanges content_step self.old (boolean value.old) depth
            self.new (boolean value.new) }
    {}

    /// INTEGER, by its content octets (8.3).
    fn visit_ber_integer_mut<'t>(&mut self, octets: &mut &'t [u8], depth: usize)
        ensures { QuietlyChanges content_step self.old (integer octets.old.now) depth
            self.new (integer octets.new.now) }
    {}

    /// BIT STRING, by the number of unused bits and the octets (8.6).
    fn visit_ber_bitstring_mut<'t>(
        &mut self,
        unused: &mut u8,
        bits: &mut BitStringObject<'t>,
        depth: usize,
    )
        ensures { QuietlyChanges content_step self.old (bit_string unused.old bits.old.bytes.now) depth
            self.new (bit_string unused.new bits.new.bytes.now) }
    {}

    /// OCTET STRING, which stays as it is (8.7).
    fn visit_ber_octetstring_mut<'t>(&mut self, octets: &'t [u8], depth: usize)
        ensures { QuietlyChanges content_step self.old (string 4 octets.now) depth
            self.new (string 4 octets.now) }
    {}

    /// NULL (8.8).
    fn visit_ber_null_mut(&mut self, depth: usize)
        ensures { QuietlyChanges content_step self.old null depth self.new null }
    {}

    /// ENUMERATED (8.4).
    fn visit_ber_enum_mut(&mut self, number: &mut u64, depth: usize)
        ensures { QuietlyChanges content_step self.old (enumerated number.old) depth
            self.new (enumerated number.new) }
    {}

    /// OBJECT IDENTIFIER (8.19).
    fn visit_ber_oid_mut<'t>(&mut self, oid: &mut Oid<'t>, depth: usize)
        ensures { QuietlyChanges content_step self.old (oid_content oid.old) depth
            self.new (oid_content oid.new) }
    {}

    /// RELATIVE-OID (8.20).
    fn visit_ber_relative_oid_mut<'t>(&mut self, oid: &mut Oid<'t>, depth: usize)
        ensures { QuietlyChanges content_step self.old (relative_oid_content oid.old) depth
            self.new (relative_oid_content oid.new) }
    {}

    /// NumericString (8.23).
    fn visit_ber_numericstring_mut<'t>(&mut self, text: &mut &'t str, depth: usize)
        ensures { QuietlyChanges content_step self.old (string 18 text.old.now) depth
            self.new (string 18 text.new.now) }
    {}

    /// VisibleString (8.23).
    fn visit_ber_visiblestring_mut<'t>(&mut self, text: &mut &'t str, depth: usize)
        ensures { QuietlyChanges content_step self.old (string 26 text.old.now) depth
            self.new (string 26 text.new.now) }
    {}

    /// PrintableString (8.23).
    fn visit_ber_printablestring_mut<'t>(&mut self, text: &mut &'t str, depth: usize)
        ensures { QuietlyChanges content_step self.old (string 19 text.old.now) depth
            self.new (string 19 text.new.now) }
    {}

    /// IA5String (8.23).
    fn visit_ber_ia5string_mut<'t>(&mut self, text: &mut &'t str, depth: usize)
        ensures { QuietlyChanges content_step self.old (string 22 text.old.now) depth
            self.new (string 22 text.new.now) }
    {}

    /// UTF8String, which stays as it is (8.23).
    fn visit_ber_utf8string_mut<'t>(&mut self, text: &'t str, depth: usize)
        ensures { QuietlyChanges content_step self.old (string 12 text.now) depth
            self.new (string 12 text.now) }
    {}

    /// TeletexString, also named T61String (8.23).
    fn visit_ber_teletexstring_mut<'t>(&mut self, text: &mut &'t str, depth: usize)
        ensures { QuietlyChanges content_step self.old (string 20 text.old.now) depth
            self.new (string 20 text.new.now) }
    {}

    /// VideotexString (8.23).
    fn visit_ber_videotextstring_mut<'t>(&mut self, text: &mut &'t str, depth: usize)
        ensures { QuietlyChanges content_step self.old (string 21 text.old.now) depth
            self.new (string 21 text.new.now) }
    {}

    /// ObjectDescriptor (8.25).
    fn visit_ber_objectdescriptor_mut<'t>(&mut self, text: &mut &'t str, depth: usize)
        ensures { QuietlyChanges content_step self.old (string 7 text.old.now) depth
            self.new (string 7 text.new.now) }
    {}

    /// GraphicString (8.23).
    fn visit_ber_graphicstring_mut<'t>(&mut self, text: &mut &'t str, depth: usize)
        ensures { QuietlyChanges content_step self.old (string 25 text.old.now) depth
            self.new (string 25 text.new.now) }
    {}

    /// GeneralString (8.23).
    fn visit_ber_generalstring_mut<'t>(&mut self, text: &mut &'t str, depth: usize)
        ensures { QuietlyChanges content_step self.old (string 27 text.old.now) depth
            self.new (string 27 text.new.now) }
    {}

    /// BMPString, by its octets (8.23).
    fn visit_ber_bmpstring_mut<'t>(&mut self, octets: &mut &'t [u8], depth: usize)
        ensures { QuietlyChanges content_step self.old (string 30 octets.old.now) depth
            self.new (string 30 octets.new.now) }
    {}

    /// UniversalString, by its octets (8.23).
    fn visit_ber_universalstring_mut<'t>(&mut self, octets: &mut &'t [u8], depth: usize)
        ensures { QuietlyChanges content_step self.old (string 28 octets.old.now) depth
            self.new (string 28 octets.new.now) }
    {}

    /// SEQUENCE and SEQUENCE OF (8.9, 8.10), before the items. The list must not become deeper.
    fn visit_ber_sequence_mut<'t>(&mut self, items: &mut Vec<BerObject<'t>>, depth: usize)
        ensures no_higher { list_height (trees items.new.items) ≤ list_height (trees items.old.items) }
        ensures step { QuietlyChanges content_step self.old (sequence (trees items.old.items)) depth
            self.new (sequence (trees items.new.items)) }
    {}

    /// SET and SET OF (8.11, 8.12), before the items. The list must not become deeper.
    fn visit_ber_set_mut<'t>(&mut self, items: &mut Vec<BerObject<'t>>, depth: usize)
        ensures no_higher { list_height (trees items.new.items) ≤ list_height (trees items.old.items) }
        ensures step { QuietlyChanges content_step self.old (set (trees items.old.items)) depth
            self.new (set (trees items.new.items)) }
    {}

    /// UTCTime, by its fields, which stay as they are (X.680 47).
    fn visit_ber_utctime_mut(&mut self, datetime: &ASN1DateTime, depth: usize)
        ensures { QuietlyChanges content_step self.old (time 23 datetime.now) depth
            self.new (time 23 datetime.now) }
    {}

    /// GeneralizedTime, by its fields, which stay as they are (X.680 46).
    fn visit_ber_generalizedtime_mut(&mut self, datetime: &ASN1DateTime, depth: usize)
        ensures { QuietlyChanges content_step self.old (time 24 datetime.now) depth
            self.new (time 24 datetime.now) }
    {}

    /// An object that may be absent. The object in it isn't visited.
    fn visit_ber_optional_mut<'t>(&mut self, object: &mut Option<Box<BerObject<'t>>>, depth: usize)
        ensures { QuietlyChanges content_step self.old (boxed_content object.old) depth
            self.new (boxed_content object.new) }
    {}

    /// An explicit tag (X.690 8.14). The object inside it isn't visited.
    fn visit_ber_tagged_mut<'t>(
        &mut self,
        class: &mut Class,
        tag: &mut Tag,
        object: &mut BerObject<'t>,
        depth: usize,
    )
        ensures { QuietlyChanges content_step self.old (tagged class.old tag.old.0 (tree object.old)) depth
            self.new (tagged class.new tag.new.0 (tree object.new)) }
    {}

    /// An element of another class or type, by its header and content octets.
    fn visit_ber_unknown_mut<'t>(&mut self, any: &mut Any<'t>, depth: usize)
        ensures { QuietlyChanges content_step self.old (unknown_content any.old) depth
            self.new (unknown_content any.new) }
    {}

    /// Visits an object at depth 0, and the items inside it.
    final fn run<'t>(&mut self, object: &mut BerObject<'t>)
    where
        Self: Sized,
        ensures { ChangesObject (ChangesNode (QuietlyChanges object_step) (QuietlyChanges content_step))
            self.old (tree object.old) 0 self.new (tree object.new) }
    {
        walk_object(self, object, 0);
    }

    /// Visits an object at this depth, and the items inside it. Depths stop at `usize::MAX`.
    final fn run_at<'t>(&mut self, object: &mut BerObject<'t>, depth: usize)
    where
        Self: Sized,
        ensures { ChangesObject (ChangesNode (QuietlyChanges object_step) (QuietlyChanges content_step))
            self.old (tree object.old) depth self.new (tree object.new) }
    {
        walk_object(self, object, depth);
    }
}

/// Each function calls the one of its name. No clause says so, since that one may be left empty. A test shows it
/// (`objects/visits.rows`).
impl<V: VisitMut> HandlesMut for V {
    ghost object_step = { QuietlyChanges V.object_step };

    ghost content_step = { QuietlyChanges V.content_step };

    fn handle_object_mut<'t>(&mut self, object: &mut BerObject<'t>, depth: usize) {
        self.visit_ber_mut(object, depth);
    }

    fn handle_endofcontent_mut(&mut self, depth: usize) {
        self.visit_ber_endofcontent_mut(depth);
    }

    fn handle_boolean_mut(&mut self, value: &mut bool, depth: usize) {
        self.visit_ber_boolean_mut(value, depth);
    }

    fn handle_integer_mut<'t>(&mut self, octets: &mut &'t [u8], depth: usize) {
        self.visit_ber_integer_mut(octets, depth);
    }

    fn handle_bitstring_mut<'t>(
        &mut self,
        unused: &mut u8,
        bits: &mut BitStringObject<'t>,
        depth: usize,
    ) {
        self.visit_ber_bitstring_mut(unused, bits, depth);
    }

    fn handle_octetstring_mut<'t>(&mut self, octets: &'t [u8], depth: usize) {
        self.visit_ber_octetstring_mut(octets, depth);
    }

    fn handle_null_mut(&mut self, depth: usize) {
        self.visit_ber_null_mut(depth);
    }

    fn handle_enum_mut(&mut self, number: &mut u64, depth: usize) {
        self.visit_ber_enum_mut(number, depth);
    }

    fn handle_oid_mut<'t>(&mut self, oid: &mut Oid<'t>, depth: usize) {
        self.visit_ber_oid_mut(oid, depth);
    }

    fn handle_relative_oid_mut<'t>(&mut self, oid: &mut Oid<'t>, depth: usize) {
        self.visit_ber_relative_oid_mut(oid, depth);
    }

    fn handle_numericstring_mut<'t>(&mut self, text: &mut &'t str, depth: usize) {
        self.visit_ber_numericstring_mut(text, depth);
    }

    fn handle_visiblestring_mut<'t>(&mut self, text: &mut &'t str, depth: usize) {
        self.visit_ber_visiblestring_mut(text, depth);
    }

    fn handle_printablestring_mut<'t>(&mut self, text: &mut &'t str, depth: usize) {
        self.visit_ber_printablestring_mut(text, depth);
    }

    fn handle_ia5string_mut<'t>(&mut self, text: &mut &'t str, depth: usize) {
        self.visit_ber_ia5string_mut(text, depth);
    }

    fn handle_utf8string_mut<'t>(&mut self, text: &'t str, depth: usize) {
        self.visit_ber_utf8string_mut(text, depth);
    }

    fn handle_teletexstring_mut<'t>(&mut self, text: &mut &'t str, depth: usize) {
        self.visit_ber_teletexstring_mut(text, depth);
    }

    fn handle_videotextstring_mut<'t>(&mut self, text: &mut &'t str, depth: usize) {
        self.visit_ber_videotextstring_mut(text, depth);
    }

    fn handle_objectdescriptor_mut<'t>(&mut self, text: &mut &'t str, depth: usize) {
        self.visit_ber_objectdescriptor_mut(text, depth);
    }

    fn handle_graphicstring_mut<'t>(&mut self, text: &mut &'t str, depth: usize) {
        self.visit_ber_graphicstring_mut(text, depth);
    }

    fn handle_generalstring_mut<'t>(&mut self, text: &mut &'t str, depth: usize) {
        self.visit_ber_generalstring_mut(text, depth);
    }

    fn handle_bmpstring_mut<'t>(&mut self, octets: &mut &'t [u8], depth: usize) {
        self.visit_ber_bmpstring_mut(octets, depth);
    }

    fn handle_universalstring_mut<'t>(&mut self, octets: &mut &'t [u8], depth: usize) {
        self.visit_ber_universalstring_mut(octets, depth);
    }

    fn handle_sequence_mut<'t>(&mut self, items: &mut Vec<BerObject<'t>>, depth: usize) {
        self.visit_ber_sequence_mut(items, depth);
    }

    fn handle_set_mut<'t>(&mut self, items: &mut Vec<BerObject<'t>>, depth: usize) {
        self.visit_ber_set_mut(items, depth);
    }

    fn handle_utctime_mut(&mut self, datetime: &ASN1DateTime, depth: usize) {
        self.visit_ber_utctime_mut(datetime, depth);
    }

    fn handle_generalizedtime_mut(&mut self, datetime: &ASN1DateTime, depth: usize) {
        self.visit_ber_generalizedtime_mut(datetime, depth);
    }

    fn handle_optional_mut<'t>(&mut self, object: &mut Option<Box<BerObject<'t>>>, depth: usize) {
        self.visit_ber_optional_mut(object, depth);
    }

    fn handle_tagged_mut<'t>(
        &mut self,
        class: &mut Class,
        tag: &mut Tag,
        object: &mut BerObject<'t>,
        depth: usize,
    ) {
        self.visit_ber_tagged_mut(class, tag, object, depth);
    }

    fn handle_unknown_mut<'t>(&mut self, any: &mut Any<'t>, depth: usize) {
        self.visit_ber_unknown_mut(any, depth);
    }
}
