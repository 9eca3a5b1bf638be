//! How W-TinyLFU divides its frames, and how large its sketch is.

ghost use Rattle.std.specs.Prelude.{◌≡◌, ◌≤◌};
ghost use Rattle.tiny_lfu.specs.Sketch.{most_width};
ghost use Rattle.tiny_lfu.specs.WTinyLfu.{counts_of, rooms_of};

use page_policies::Frames;

/// How many counts a row of the sketch has for each frame.
#[derive(Clone, Copy, Debug, PartialEq, Eq)]
pub enum SketchWidth {
    One,
    Four,
}

impl SketchWidth {
    fn counts(self) -> usize
        ensures counts { result ≡ counts_of self }
        ensures some { 1 ≤ result }
        ensures few { result ≤ 4 }
    {
        match self {
            SketchWidth::One => 1,
            SketchWidth::Four => 4,
        }
    }
}

/// How many of a hundred frames W-TinyLFU gives to the window, in how many of a hundred others pages are protected, how wide the sketch
/// is, and after how many uses for each frame its counts are halved.
#[derive(Clone, Copy, Debug, PartialEq, Eq)]
pub struct TinyLfuShares {
    pub window: u32,
    pub protected: u32,
    pub width: SketchWidth,
    pub sample: u32,
}

/// How many frames W-TinyLFU has, how many of them the window, the main cache and its protected pages have, how many counts a row of the
/// sketch has, and after how many uses they are halved.
#[derive(Clone, Copy, Debug, PartialEq, Eq)]
pub(crate) struct TinyLfuRooms {
    pub(crate) frames: usize,
    pub(crate) window: usize,
    pub(crate) main: usize,
    pub(crate) protected: usize,
    pub(crate) width: usize,
    pub(crate) sample: usize,
}

impl TinyLfuShares {
    /// Those of its authors.
    pub const USUAL: TinyLfuShares = TinyLfuShares {
        window: 1,
        protected: 80,
        width: SketchWidth::One,
        sample: 10,
    };

    /// The least and the greatest that may be asked for.
    pub const WINDOW: (u32, u32) = (0, 100);

    pub const PROTECTED: (u32, u32) = (0, 100);

    pub const SAMPLE: (u32, u32) = (1, 1000);

    /// Of so many frames, rounded down.
    pub(crate) fn rooms(self, frames: Frames) -> TinyLfuRooms
        ensures rooms { result ≡ rooms_of self frames.number }
        ensures some { 1 ≤ result.width }
        ensures most { result.width ≤ most_width }
        ensures uses { 1 ≤ result.sample }
    {
        let number = frames.number();
        let window = (number * self.window as usize / 100).max(1);
        let main = number.saturating_sub(window);
        TinyLfuRooms {
            frames: number,
            window,
            main,
            protected: main * self.protected as usize / 100,
            width: number * self.width.counts(),
            sample: (number as u64 * u64::from(self.sample))
                .max(1)
                .min(usize::MAX as u64) as usize,
        }
    }
}
