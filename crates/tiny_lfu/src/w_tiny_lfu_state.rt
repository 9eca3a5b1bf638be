//! What W-TinyLFU keeps.

ghost use Rattle.std.specs.Prelude.{◌≡◌};

use crate::shares::TinyLfuRooms;
use crate::sketch_state::Sketch;
use page_policies::Queue;

/// W-TinyLFU: a page comes into a small window. It goes on from there only where it was used more often than the page that would have
/// to leave for it. A sketch of all uses estimates this.
#[derive(Drop)]
pub struct WTinyLfu {
    pub(crate) rooms: TinyLfuRooms,
    pub(crate) window: Queue,
    /// pages that came from the window
    pub(crate) probation: Queue,
    /// pages that were used on probation
    pub(crate) protected: Queue,
    pub(crate) sketch: Sketch,
    ghost width: { sketch.width ≡ rooms.width },
    ghost sample: { sketch.sample ≡ rooms.sample },
}
