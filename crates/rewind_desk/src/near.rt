//! States that a closed shelf holds.

ghost use Rattle.std.specs.Prelude.{◌≡◌};
ghost use Rattle.rewind_desk.specs.Nearest.{events_of, nearer_of};

use shelf_core::Key;

// A state that a closed shelf holds: its key, and how many events it has. These are fewer than its key says where its run ended
// before or stopped at a time.
#[derive(Clone, Copy)]
pub(crate) struct Near {
    pub(crate) key: Key,
    pub(crate) events: u32,
}

// How many events it has; 0 where there is none.
pub(crate) fn events_of(near: Option<Near>) -> u32
    ensures { result ≡ events_of near }
{
    match near {
        None => 0,
        Some(near) => near.events,
    }
}

// The one of two with more events; the later one where they have as many.
pub(crate) fn nearer(before: Option<Near>, behind: Option<Near>) -> Option<Near>
    ensures { result ≡ nearer_of before behind }
{
    let Some(b) = behind else {
        return before;
    };
    let Some(a) = before else {
        return behind;
    };
    if b.events < a.events { before } else { behind }
}
