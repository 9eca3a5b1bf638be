//! The numbers of frames that a table has unless others are asked for.

ghost use Rattle.std.specs.Prelude.{◌≡◌, ◌≤◌, ◌<◌, ◌^◌, IfOk, map};
ghost use Rattle.miss_counts.specs.FrameNumbers.{usual_numbers};

use page_policies::Frames;
use std::alloc::{AllocError, Global};

/// A power of two as a number of frames.
#[tactic(auto, using(crate::proofs::Powers::power_bounds, crate::proofs::Powers::power_fits))]
fn power_of_two(power: u32) -> Frames
    requires least { 2 ≤ power }
    requires most { power < 13 }
    ensures { result.number ≡ 2 ^ power }
{
    Frames::of(1usize << power)
}

/// 4 frames, and twice as many again and again, until there are so many, or 4096.
pub fn usual_frames(alloc: Global, pages: usize) -> Result<Vec<Frames>, AllocError>
    ensures { IfOk result (λ all. map (λ f. f.number) all.items ≡ usual_numbers pages) }
{
    let mut all = Vec::new(alloc);
    'powers: for power in 2u32..13 {
        let frames = power_of_two(power);
        all.push(frames)?;
        if frames.number() >= pages {
            return Ok(all);
        }
    }
    Ok(all)
}
