//! Visitors that read objects.
ghost use Rattle.std.specs.Prelude.{ℕ};
ghost use Rattle.std.specs.Option.{option_copied};
ghost use Rattle.der_base.specs.Listing.{listing};
ghost use Rattle.der_base.specs.Tree.{Node, Content, end_of_content, boolean, integer, bit_string, string, null};
ghost use Rattle.der_base.specs.Tree.{enumerated, sequence, set, tagged, time};
ghost use Rattle.der_object.specs.View.{tree, trees};
ghost use Rattle.der_visit.specs.Visiting.{Quietly, MeetsObject, TakenThrough};
ghost use Rattle.der_visit.specs.Visiting.{oid_content, relative_oid_content, optional_content, unknown_content};

use crate::handles::Handles;
use crate::walk::walk_object;
use der_base::any::Any;
use der_base::header::{Class, Tag};
use der_base::oid::Oid;
use der_base::time::ASN1DateTime;
use der_object::{BerObject, BitStringObject};

/// A visitor with a function for any object and one for each type of content. `run` visits an object, and then each
/// item inside a SEQUENCE or SET, one level deeper. It calls `visit_ber` and then the function of the content's type.
/// Each function has an empty default body.
///
/// `object_step` is what `visit_ber` does, and `content_step` what the other functions do. Each is a relation of the
/// visitor before, what is visited, its depth and the visitor after. A function changes the visitor by its relation or
/// not at all, as an empty body does.
///
/// The contract of `run` says where, in which order and by what the visitor may change. It allows that a function
/// changes nothing at an object. [`Handles`] has the same functions without default bodies, and [`Walk`](crate::Walk)
/// has one, so their contracts exclude that. Each `Visit` is a `Handles`, each `Handles` is a `Walk`, and `run` is that
/// walk.
pub trait Visit {
    ghost object_step: { Self → Node → ℕ → Self → Type 0 } = { λ _ _ _ _. ⊥ };

    ghost content_step: { Self → Content → ℕ → Self → Type 0 } = { λ _ _ _ _. ⊥ };

    /// Any object, before the function of its content's type.
    fn visit_ber<'t>(&mut self, object: &BerObject<'t>, depth: usize)
        ensures { Quietly object_step self.old (tree object.now) depth self.new }
    {}

    /// The type of tag number 0, which ends an indefinite length (X.690 8.1.5).
    fn visit_ber_endofcontent(&mut self, depth: usize)
        ensures { Quietly content_step self.old end_of_content depth self.new }
    {}

    /// BOOLEAN (8.2).
    fn visit_ber_boolean(&mut self, value: bool, depth: usize)
        ensures { Quietly content_step self.old (boolean value) depth self.new }
    {}

    /// INTEGER, by its content octets (8.3).
    fn visit_ber_integer<'t>(&mut self, octets: &'t [u8], depth: usize)
        ensures { Quietly content_step self.old (integer octets.now) depth self.new }
    {}

    /// BIT STRING, by the number of unused bits and the octets (8.6).
    fn visit_ber_bitstring<'t>(&mut self, unused: u8, bits: &BitStringObject<'t>, depth: usize)
        ensures { Quietly content_step self.old (bit_string unused bits.now.bytes.now) depth self.new }
    {}

    /// OCTET STRING (8.7).
    fn visit_ber_octetstring<'t>(&mut self, octets: &'t [u8], depth: usize)
        ensures { Quietly content_step self.old (string 4 octets.now) depth self.new }
    {}

    /// NULL (8.8).
    fn visit_ber_null(&mut self, depth: usize)
        ensures { Quietly content_step self.old null depth self.new }
    {}

    /// ENUMERATED (8.4).
    fn visit_ber_enum(&mut self, number: u64, depth: usize)
        ensures { Quietly content_step self.old (enumerated number) depth self.new }
    {}

    /// OBJECT IDENTIFIER (8.19).
    fn visit_ber_oid<'t>(&mut self, oid: &Oid<'t>, depth: usize)
        ensures { Quietly content_step self.old (oid_content oid.now) depth self.new }
    {}

    /// RELATIVE-OID (8.20).
    fn visit_ber_relative_oid<'t>(&mut self, oid: &Oid<'t>, depth: usize)
        ensures { Quietly content_step self.old (relative_oid_content oid.now) depth self.new }
    {}

    /// NumericString (8.23).
    fn visit_ber_numericstring<'t>(&mut self, text: &'t str, depth: usize)
        ensures { Quietly content_step self.old (string 18 text.now) depth self.new }
    {}

    /// VisibleString (8.23).
    fn visit_ber_visiblestring<'t>(&mut self, text: &'t str, depth: usize)
        ensures { Quietly content_step self.old (string 26 text.now) depth self.new }
    {}

    /// PrintableString (8.23).
    fn visit_ber_printablestring<'t>(&mut self, text: &'t str, depth: usize)
        ensures { Quietly content_step self.old (string 19 text.now) depth self.new }
    {}

    /// IA5String (8.23).
    fn visit_ber_ia5string<'t>(&mut self, text: &'t str, depth: usize)
        ensures { Quietly content_step self.old (string 22 text.now) depth self.new }
    {}

    /// UTF8String (8.23).
    fn visit_ber_utf8string<'t>(&mut self, text: &'t str, depth: usize)
        ensures { Quietly content_step self.old (string 12 text.now) depth self.new }
    {}

    /// TeletexString, also named T61String (8.23).
    fn visit_ber_teletexstring<'t>(&mut self, text: &'t str, depth: usize)
        ensures { Quietly content_step self.old (string 20 text.now) depth self.new }
    {}

    /// VideotexString (8.23).
    fn visit_ber_videotextstring<'t>(&mut self, text: &'t str, depth: usize)
        ensures { Quietly content_step self.old (string 21 text.now) depth self.new }
    {}

    /// ObjectDescriptor (8.25).
    fn visit_ber_objectdescriptor<'t>(&mut self, text: &'t str, depth: usize)
        ensures { Quietly content_step self.old (string 7 text.now) depth self.new }
    {}

    /// GraphicString (8.23).
    fn visit_ber_graphicstring<'t>(&mut self, text: &'t str, depth: usize)
        ensures { Quietly content_step self.old (string 25 text.now) depth self.new }
    {}

    /// GeneralString (8.23).
    fn visit_ber_generalstring<'t>(&mut self, text: &'t str, depth: usize)
        ensures { Quietly content_step self.old (string 27 text.now) depth self.new }
    {}

    /// BMPString, by its octets (8.23).
    fn visit_ber_bmpstring<'t>(&mut self, octets: &'t [u8], depth: usize)
        ensures { Quietly content_step self.old (string 30 octets.now) depth self.new }
    {}

    /// UniversalString, by its octets (8.23).
    fn visit_ber_universalstring<'t>(&mut self, octets: &'t [u8], depth: usize)
        ensures { Quietly content_step self.old (string 28 octets.now) depth self.new }
    {}

    /// SEQUENCE and SEQUENCE OF (8.9, 8.10), before the items.
    fn visit_ber_sequence<'t>(&mut self, items: &[BerObject<'t>], depth: usize)
        ensures { Quietly content_step self.old (sequence (trees items.now)) depth self.new }
    {}

    /// SET and SET OF (8.11, 8.12), before the items.
    fn visit_ber_set<'t>(&mut self, items: &[BerObject<'t>], depth: usize)
        ensures { Quietly content_step self.old (set (trees items.now)) depth self.new }
    {}

    /// UTCTime, by its fields (X.680 47).
    fn visit_ber_utctime(&mut self, datetime: &ASN1DateTime, depth: usize)
        ensures { Quietly content_step self.old (time 23 datetime.now) depth self.new }
    {}

    /// GeneralizedTime, by its fields (X.680 46).
    fn visit_ber_generalizedtime(&mut self, datetime: &ASN1DateTime, depth: usize)
        ensures { Quietly content_step self.old (time 24 datetime.now) depth self.new }
    {}

    /// An object that may be absent. The object in it isn't visited.
    fn visit_ber_optional<'t>(&mut self, object: Option<&BerObject<'t>>, depth: usize)
        ensures { Quietly content_step self.old (optional_content (option_copied object.entry)) depth self.new }
    {}

    /// An explicit tag (X.690 8.14). The object inside it isn't visited.
    fn visit_ber_tagged<'t>(&mut self, class: Class, tag: Tag, object: &BerObject<'t>, depth: usize)
        ensures { Quietly content_step self.old (tagged class tag.0 (tree object.now)) depth self.new }
    {}

    /// An element of another class or type, by its header and content octets.
    fn visit_ber_unknown<'t>(&mut self, any: &Any<'t>, depth: usize)
        ensures { Quietly content_step self.old (unknown_content any.now) depth self.new }
    {}

    /// Visits an object at depth 0, and the items inside it.
    final fn run<'t>(&mut self, object: &BerObject<'t>)
    where
        Self: Sized,
        ensures { TakenThrough (MeetsObject (Quietly object_step) (Quietly content_step))
            (listing (tree object.now) 0) self.old self.new }
    {
        walk_object(self, object, 0);
    }

    /// Visits an object at this depth, and the items inside it. Depths stop at `usize::MAX`.
    final fn run_at<'t>(&mut self, object: &BerObject<'t>, depth: usize)
    where
        Self: Sized,
        ensures { TakenThrough (MeetsObject (Quietly object_step) (Quietly content_step))
            (listing (tree object.now) depth) self.old self.new }
    {
        walk_object(self, object, depth);
    }
}

/// Each function calls the one of its name. No clause says so, since that one may be left empty. A test shows it
/// (`objects/visits.rows`).
impl<V: Visit> Handles for V {
    ghost object_step = { Quietly V.object_step };

    ghost content_step = { Quietly V.content_step };

    fn handle_object<'t>(&mut self, object: &BerObject<'t>, depth: usize) {
        self.visit_ber(object, depth);
    }

    fn handle_endofcontent(&mut self, depth: usize) {
        self.visit_ber_endofcontent(depth);
    }

    fn handle_boolean(&mut self, value: bool, depth: usize) {
        self.visit_ber_boolean(value, depth);
    }

    fn handle_integer<'t>(&mut self, octets: &'t [u8], depth: usize) {
        self.visit_ber_integer(octets, depth);
    }

    fn handle_bitstring<'t>(&mut self, unused: u8, bits: &BitStringObject<'t>, depth: usize) {
        self.visit_ber_bitstring(unused, bits, depth);
    }

    fn handle_octetstring<'t>(&mut self, octets: &'t [u8], depth: usize) {
        self.visit_ber_octetstring(octets, depth);
    }

    fn handle_null(&mut self, depth: usize) {
        self.visit_ber_null(depth);
    }

    fn handle_enum(&mut self, number: u64, depth: usize) {
        self.visit_ber_enum(number, depth);
    }

    fn handle_oid<'t>(&mut self, oid: &Oid<'t>, depth: usize) {
        self.visit_ber_oid(oid, depth);
    }

    fn handle_relative_oid<'t>(&mut self, oid: &Oid<'t>, depth: usize) {
        self.visit_ber_relative_oid(oid, depth);
    }

    fn handle_numericstring<'t>(&mut self, text: &'t str, depth: usize) {
        self.visit_ber_numericstring(text, depth);
    }

    fn handle_visiblestring<'t>(&mut self, text: &'t str, depth: usize) {
        self.visit_ber_visiblestring(text, depth);
    }

    fn handle_printablestring<'t>(&mut self, text: &'t str, depth: usize) {
        self.visit_ber_printablestring(text, depth);
    }

    fn handle_ia5string<'t>(&mut self, text: &'t str, depth: usize) {
        self.visit_ber_ia5string(text, depth);
    }

    fn handle_utf8string<'t>(&mut self, text: &'t str, depth: usize) {
        self.visit_ber_utf8string(text, depth);
    }

    fn handle_teletexstring<'t>(&mut self, text: &'t str, depth: usize) {
        self.visit_ber_teletexstring(text, depth);
    }

    fn handle_videotextstring<'t>(&mut self, text: &'t str, depth: usize) {
        self.visit_ber_videotextstring(text, depth);
    }

    fn handle_objectdescriptor<'t>(&mut self, text: &'t str, depth: usize) {
        self.visit_ber_objectdescriptor(text, depth);
    }

    fn handle_graphicstring<'t>(&mut self, text: &'t str, depth: usize) {
        self.visit_ber_graphicstring(text, depth);
    }

    fn handle_generalstring<'t>(&mut self, text: &'t str, depth: usize) {
        self.visit_ber_generalstring(text, depth);
    }

    fn handle_bmpstring<'t>(&mut self, octets: &'t [u8], depth: usize) {
        self.visit_ber_bmpstring(octets, depth);
    }

    fn handle_universalstring<'t>(&mut self, octets: &'t [u8], depth: usize) {
        self.visit_ber_universalstring(octets, depth);
    }

    fn handle_sequence<'t>(&mut self, items: &[BerObject<'t>], depth: usize) {
        self.visit_ber_sequence(items, depth);
    }

    fn handle_set<'t>(&mut self, items: &[BerObject<'t>], depth: usize) {
        self.visit_ber_set(items, depth);
    }

    fn handle_utctime(&mut self, datetime: &ASN1DateTime, depth: usize) {
        self.visit_ber_utctime(datetime, depth);
    }

    fn handle_generalizedtime(&mut self, datetime: &ASN1DateTime, depth: usize) {
        self.visit_ber_generalizedtime(datetime, depth);
    }

    fn handle_optional<'t>(&mut self, object: Option<&BerObject<'t>>, depth: usize) {
        self.visit_ber_optional(object, depth);
    }

    fn handle_tagged<'t>(&mut self, class: Class, tag: Tag, object: &BerObject<'t>, depth: usize) {
        self.visit_ber_tagged(class, tag, object, depth);
    }

    fn handle_unknown<'t>(&mut self, any: &Any<'t>, depth: usize) {
        self.visit_ber_unknown(any, depth);
    }
}
