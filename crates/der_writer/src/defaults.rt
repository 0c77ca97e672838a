//! Values with a default, which isn't put (X.680 25.9, X.690 11.5).
ghost use Rattle.std.specs.Prelude.{◌≡◌, ◌↔◌, IsTrue};
ghost use Rattle.der_base.specs.Encoding.{content_octets};
ghost use Rattle.der_base.specs.Octets.{shortest_integer};
ghost use Rattle.der_base.specs.Text.{is_text_type};
ghost use Rattle.der_base.specs.Tree.{boolean};
ghost use Rattle.der_writer.specs.Octets.{bit_octets, signed_integer};
ghost use Rattle.der_writer.specs.Written.{PutsTextUnless, PutsUnless};

use crate::fields::clear_bits;
use crate::writer::Writer;
use der_base::error::BerError;
use der_base::header::Tag;

impl<'b> Writer<'b> {
    /// A BOOLEAN, unless it is the default.
    pub fn put_default_bool(&mut self, value: bool, default: bool)
        ensures { PutsUnless default 1 (λ v. content_octets (boolean v)) value self.old self.new }
    {
        if value == default {
            self.put_elements(&[]);
        } else {
            self.put_bool(value);
        }
    }

    /// An INTEGER that isn't negative, unless it is the default.
    pub fn put_default_u64(&mut self, value: u64, default: u64)
        ensures { PutsUnless default 2 shortest_integer value self.old self.new }
    {
        if value == default {
            self.put_elements(&[]);
        } else {
            self.put_u64(value);
        }
    }

    /// An INTEGER, unless it is the default.
    pub fn put_default_i64(&mut self, value: i64, default: i64)
        ensures { PutsUnless default 2 signed_integer value self.old self.new }
    {
        if value == default {
            self.put_elements(&[]);
        } else {
            self.put_i64(value);
        }
    }

    /// A BIT STRING as `put_bits`, unless it is the default. Unused bits don't count.
    pub fn put_default_bits(&mut self, unused: u8, octets: &[u8], default: (u8, &[u8]))
        ensures { PutsUnless (bit_octets default.entry.0 default.entry.1.now) 3 (λ w. w) (bit_octets unused octets.now)
            self.old self.new }
    {
        if are_same_bits(unused, octets, default.0, default.1) {
            self.put_elements(&[]);
        } else {
            self.put_bits(unused, octets);
        }
    }

    /// An OCTET STRING, unless it is the default.
    pub fn put_default_octets(&mut self, octets: &[u8], default: &[u8])
        ensures { PutsUnless default.now 4 (λ w. w) octets.now self.old self.new }
    {
        if octets == default {
            self.put_elements(&[]);
        } else {
            self.put_octets(octets);
        }
    }

    /// An OBJECT IDENTIFIER as `put_oid`, unless it is the default.
    pub fn put_default_oid(&mut self, octets: &[u8], default: &[u8])
        ensures { PutsUnless default.now 6 (λ w. w) octets.now self.old self.new }
    {
        if octets == default {
            self.put_elements(&[]);
        } else {
            self.put_oid(octets);
        }
    }

    /// A UTF8String, unless it is the default.
    pub fn put_default_utf8(&mut self, text: &str, default: &str)
        ensures { PutsUnless default.now 12 (λ w. w) text.now self.old self.new }
    {
        if text == default {
            self.put_elements(&[]);
        } else {
            self.put_utf8(text);
        }
    }

    /// A text as `put_text`, unless it is the default.
    pub fn put_default_text(
        &mut self,
        tag: Tag,
        octets: &[u8],
        default: &[u8],
    ) -> Result<(), BerError>
        requires { IsTrue (is_text_type tag.0) }
        ensures { PutsTextUnless default.now tag.0 octets.now self.old result self.new }
    {
        if octets == default {
            self.put_elements(&[]);
            Ok(())
        } else {
            self.put_text(tag, octets)
        }
    }
}

/// Whether they are the same bits. Unused bits don't count.
fn are_same_bits(unused: u8, octets: &[u8], other_unused: u8, other_octets: &[u8]) -> bool
    ensures { IsTrue result ↔ (bit_octets unused octets.now ≡ bit_octets other_unused other_octets.now) }
{
    let Some((last, front)) = octets.split_last() else {
        return other_octets.is_empty();
    };
    let Some((other_last, other_front)) = other_octets.split_last() else {
        return false;
    };
    let unused = unused.min(7);
    if unused != other_unused.min(7) || front != other_front {
        return false;
    }
    clear_bits(*last, unused) == clear_bits(*other_last, unused)
}
