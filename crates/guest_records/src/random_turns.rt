//! Turns of live harts that are chosen at random: which one, and for how many instructions.

ghost use Rattle.std.specs.Prelude.{◌≡◌, ◌<◌, ◌≤◌, true};
ghost use Rattle.flat_machine.specs.Process.{is_live};

use crate::chosen_turn::ChosenTurn;
use crate::live_harts::{count_live, live_hart};
use crate::random_numbers::below;
use flat_machine::FlatProcess;
use rand_core::utils::NextWord;
use rand_pcg::Pcg32;

/// The most instructions of a turn.
const MOST: u32 = 1000;

/// The least lengths of turns of one class each: a length is of any class as often, and below twice the least.
const CLASSES: [u32; 10] = [1, 2, 4, 8, 16, 32, 64, 128, 256, 512];

/// Chooses a live hart, each as often, and 1 to 1000 instructions of it, short turns as often as long ones.
#[derive(Clone, Debug, Drop)]
pub(crate) struct RandomTurns {
    generator: Pcg32,
}

impl RandomTurns {
    /// What is chosen depends only on the seed.
    pub(crate) fn new(seed: u64) -> Self {
        RandomTurns {
            generator: Pcg32::new(seed, 0),
        }
    }

    /// The next turn of a process.
    pub(crate) fn choose(&mut self, process: &FlatProcess) -> ChosenTurn
        ensures live { is_live result.hart process.now ≡ true }
        ensures some { 0 < result.most }
        ensures within { result.most ≤ 1000 }
    {
        let live = count_live(process);
        let place = below(self.generator.next_word(), live);
        let class = self.generator.next_word();
        let word = self.generator.next_word();
        ChosenTurn {
            hart: live_hart(process, place),
            most: length(class, word),
            is_cut: false,
        }
    }
}

/// The length of a turn that two words choose: its class, and which of that.
fn length(class: u32, word: u32) -> u32
    ensures some { 0 < result }
    ensures within { result ≤ 1000 }
{
    let least = CLASSES[(class % 10) as usize];
    let more = below(word, least);
    least.saturating_add(more).clamp(1, MOST)
}
