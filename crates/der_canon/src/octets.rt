//! Octets in a buffer, which are written if the capacity allows.
ghost use Rattle.std.specs.Prelude.{◌≡◌, ◌+◌, ◌≤◌, ◌++◌, drop, length, take};
ghost use Rattle.der_base.specs.Octets.{shortest_length};
ghost use Rattle.der_elements.specs.Check.Overlay.{overlay};
ghost use Rattle.der_writer.specs.Written.{FillsTo};

use der_values::octets::header::write_length;

/// The most octets of a length.
pub(crate) const LENGTH_OCTETS: usize = 9;

/// Writes octets at the start of a buffer.
pub(crate) fn copy(out: &mut [u8], octets: &[u8])
    ensures { out.new ≡ overlay out.old 0 octets.now }
{
    let count = octets.len().min(out.len());
    out[..count].copy_from_slice(&octets[..count]);
}

/// Writes octets between two offsets.
pub(crate) fn put_octets(out: &mut [u8], begin: usize, end: usize, octets: &[u8])
    requires { end ≤ length out.old → begin + length octets.now ≡ end }
    ensures { FillsTo end out.old out.new begin octets.now }
{
    if end <= out.len() {
        out[begin..end].copy_from_slice(octets);
    }
}

/// Writes a length from an offset on, in place of one octet, and moves the content after it up to `end`.
pub(crate) fn wrap(out: &mut [u8], begin: usize, end: usize, content_size: usize)
    requires { end ≤ length out.old → begin + length (shortest_length content_size) + content_size ≡ end }
    ensures { FillsTo end out.old out.new begin
        (shortest_length content_size ++ take content_size (drop (begin + 1) out.old)) }
{
    if end <= out.len() {
        let content = end - content_size;
        move_up(out, begin + 1, content, content_size);
        fill_length(&mut out[begin..content], content_size);
    }
}

/// Moves `count` octets up to another offset, if that is higher.
#[tactic(auto, using(der_writer::proofs::Moves::behind_stays))]
fn move_up(out: &mut [u8], from: usize, to: usize, count: usize)
    requires up { from ≤ to }
    requires within { to + count ≤ length out.old }
    ensures size { length out.new ≡ length out.old }
    ensures front { take from out.new ≡ take from out.old }
    ensures moved { take count (drop to out.new) ≡ take count (drop from out.old) }
    ensures behind { drop (to + count) out.new ≡ drop (to + count) out.old }
{
    if to > from {
        out.copy_within(from..from + count, to);
    }
}

/// Fills a buffer with a length, in the fewest octets (X.690 8.1.3.4, 8.1.3.5, 10.1).
pub(crate) fn fill_length(room: &mut [u8], content_size: usize)
    requires { length room.old ≡ length (shortest_length content_size) }
    ensures { room.new ≡ shortest_length content_size }
{
    let end = room.len();
    write_length(room, end, content_size);
}
