//! Calls that put the value of one type.
ghost use Rattle.std.specs.Prelude.{[], not, ◌==◌};
ghost use Rattle.der_base.specs.Encoding.{content_octets};
ghost use Rattle.der_base.specs.Octets.{number, shortest_integer};
ghost use Rattle.der_base.specs.Tree.{boolean, enumerated};
ghost use Rattle.der_writer.specs.Octets.{bit_octets, signed_integer};
ghost use Rattle.der_writer.specs.Written.{PutsLeaf};

use der_writer::Writer;

/// Puts a BOOLEAN (X.690 8.2, 11.1): FALSE if the value is 0.
#[unsafe(no_mangle)]
pub extern "C" fn dm_put_bool(writer: &mut Writer<'_>, value: u8)
    ensures { PutsLeaf 1 (content_octets (boolean (not (value == 0)))) writer.old writer.new }
{
    writer.put_bool(value != 0);
}

/// Puts an INTEGER that isn't negative.
#[unsafe(no_mangle)]
pub extern "C" fn dm_put_u64(writer: &mut Writer<'_>, value: u64)
    ensures { PutsLeaf 2 (shortest_integer value) writer.old writer.new }
{
    writer.put_u64(value);
}

/// Puts an INTEGER.
#[unsafe(no_mangle)]
pub extern "C" fn dm_put_i64(writer: &mut Writer<'_>, value: i64)
    ensures { PutsLeaf 2 (signed_integer value) writer.old writer.new }
{
    writer.put_i64(value);
}

/// Puts an INTEGER of any size that isn't negative, from big-endian octets. Leading zeros are left out.
#[unsafe(no_mangle)]
pub extern "C" fn dm_put_magnitude(writer: &mut Writer<'_>, octets: &[u8])
    ensures { PutsLeaf 2 (shortest_integer (number octets.now)) writer.old writer.new }
{
    writer.put_magnitude(octets);
}

/// Puts an ENUMERATED (X.690 8.4) that isn't negative.
#[unsafe(no_mangle)]
pub extern "C" fn dm_put_enumerated(writer: &mut Writer<'_>, value: u64)
    ensures { PutsLeaf 10 (content_octets (enumerated value)) writer.old writer.new }
{
    writer.put_enumerated(value);
}

/// Puts an ENUMERATED that may be negative.
#[unsafe(no_mangle)]
pub extern "C" fn dm_put_enumerated_i64(writer: &mut Writer<'_>, value: i64)
    ensures { PutsLeaf 10 (signed_integer value) writer.old writer.new }
{
    writer.put_enumerated_i64(value);
}

/// Puts a BIT STRING (X.690 8.6, 11.2). The last `unused` bits, at most seven, aren't used and are put as 0.
#[unsafe(no_mangle)]
pub extern "C" fn dm_put_bits(writer: &mut Writer<'_>, unused: u8, octets: &[u8])
    ensures { PutsLeaf 3 (bit_octets unused octets.now) writer.old writer.new }
{
    writer.put_bits(unused, octets);
}

/// Puts an OCTET STRING (X.690 8.7).
#[unsafe(no_mangle)]
pub extern "C" fn dm_put_octets(writer: &mut Writer<'_>, octets: &[u8])
    ensures { PutsLeaf 4 octets.now writer.old writer.new }
{
    writer.put_octets(octets);
}

/// Puts a NULL (X.690 8.8).
#[unsafe(no_mangle)]
pub extern "C" fn dm_put_null(writer: &mut Writer<'_>)
    ensures { PutsLeaf 5 [] writer.old writer.new }
{
    writer.put_null();
}

/// Puts an OBJECT IDENTIFIER with these content octets (X.690 8.19).
#[unsafe(no_mangle)]
pub extern "C" fn dm_put_oid(writer: &mut Writer<'_>, octets: &[u8])
    ensures { PutsLeaf 6 octets.now writer.old writer.new }
{
    writer.put_oid(octets);
}
