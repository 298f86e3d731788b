// Depths of places, as far as they are known.

ghost use Rattle.std.specs.Prelude.{◌≡◌, ◌↔◌, ◌<◌, length, Some, None, slice_get, slice_set, IsTrue};
ghost use Rattle.p3l_verify.specs.Known.{CanNote, CanNoteAt, IsFree, noted_at};

/// The depth of a place: the one that is known, and 0 where nothing has reached the place. It is
/// known from then on.
pub fn settle(known: &mut [Option<u32>], place: usize) -> u32
    requires { place < length known.old }
    ensures depth { CanNote known.old place result }
    ensures unreached { slice_get known.old place ≡ Some None → result ≡ 0 }
    ensures known { known.new ≡ slice_set known.old place (Some result) }
{
    let depth = known[place].unwrap_or(0);
    known[place] = Some(depth);
    depth
}

/// Notes the depth of a place, if it is there and no other depth is known of it.
pub fn note(known: &mut [Option<u32>], place: usize, depth: u32) -> bool
    ensures can { IsTrue result ↔ CanNote known.old place depth }
    ensures known { IsTrue result → known.new ≡ slice_set known.old place (Some depth) }
{
    if place >= known.len() || !is_free(known[place], depth) {
        return false;
    }
    known[place] = Some(depth);
    true
}

// Returns true exactly if no other depth is known.
fn is_free(known: Option<u32>, depth: u32) -> bool
    ensures { IsTrue result ↔ IsFree known depth }
{
    match known {
        Some(other) => other == depth,
        None => true,
    }
}

/// Notes the depth of the place that is led to, if there is one.
pub fn note_at(known: &mut [Option<u32>], to: Option<u32>, depth: u32) -> bool
    ensures can { IsTrue result ↔ CanNoteAt known.old to depth }
    ensures known { IsTrue result → known.new ≡ noted_at known.old to depth }
{
    match to {
        Some(to) => note(known, to as usize, depth),
        None => true,
    }
}
