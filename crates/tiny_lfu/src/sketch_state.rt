//! What a sketch keeps.

ghost use Rattle.std.specs.Prelude.{◌≡◌, ◌≤◌, ◌<◌, ◌*◌, length};
ghost use Rattle.tiny_lfu.specs.Sketch.{most_width};

/// Four rows of counts, which age as uses are added.
#[derive(Drop)]
pub(crate) struct Sketch {
    pub(crate) width: usize,
    /// after how many uses the counts are halved
    pub(crate) sample: usize,
    pub(crate) counts: Vec<u8>,
    pub(crate) added: usize,
    ghost some: { 1 ≤ width },
    ghost most: { width ≤ most_width },
    ghost size: { length counts.items ≡ 4 * width },
    ghost few: { added < sample },
}
