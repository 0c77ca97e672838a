//! Laws of cursors. Each function's contract is a law, and its body is empty.
ghost use Rattle.der_base.specs.Copies.{AlwaysSo, AreTheValue};
ghost use Rattle.der_cursor.specs.Laws.{PlacesCount, NewStand, EndsStand, OpenedStand};

use crate::cursor::Cursor;

/// The offset of a cursor is the number of octets of the input before those that are left. Each parser that was called
/// has to leave an end of its input.
pub fn places_are_exact()
    ensures places { PlacesCount }
    ensures new { NewStand }
    ensures read { EndsStand }
    ensures opened { OpenedStand }
{}

/// A clone of a cursor is the cursor itself and takes no memory.
pub fn cursor_clones_are_the_value()
    ensures cursor { AreTheValue ⟦<Cursor<'static> as Clone>⟧.is_clone }
    ensures cursor_memory { AlwaysSo ⟦<Cursor<'static> as Clone>⟧.is_infallible }
{}
