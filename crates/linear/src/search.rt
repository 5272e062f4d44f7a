// The search for the code of a light: where it starts, and the least light of each level. It is made for a depth
// that light has codes at, and promises the code of every light.
ghost use Rattle.std.specs.Prelude.{◌≡◌, true, min, ◌-◌};
ghost use Rattle.esrgb.specs.Depths.{bits, step, scale};
ghost use Rattle.transfer.specs.Level.{offers_codes, level_of_light, code_of_light};
ghost use Rattle.transfer.specs.HowTabled.{levels, start_of, ThresholdTable, StartTable};

use esrgb::{Depth, step_of};
use refusal::Refusal;
use transfer::starts::{group_of, start_table};
use transfer::thresholds::thresholds_of;

#[derive(Clone, Copy)]
pub struct LevelSearch {
    pub depth: Depth,
    starts: &'static [u16; 1268],
    thresholds: &'static [u32],
    ghost has_codes: { offers_codes (bits depth) ≡ true },
    ghost starts_hold: { StartTable (bits depth) starts.now },
    ghost thresholds_hold: { ThresholdTable (bits depth) thresholds.now },
}

impl TryFrom<u32> for LevelSearch {
    type Error = Refusal;

    ghost use Rattle.linear.specs.HowSearched.{Searches};

    ghost try_from_gives = { Searches };

    fn try_from(bits: u32) -> Result<LevelSearch, Refusal> {
        let depth = Depth::try_from(bits)?;
        let thresholds = thresholds_of(depth).ok_or(Refusal::DepthNotOffered)?;
        Ok(LevelSearch {
            depth,
            starts: start_table(),
            thresholds,
        })
    }
}

// How many levels the table of starts leaves to a search.
const FEW_LEVELS: usize = 8;

// How many levels from 0 up the codes of a depth have, in steps of that depth.
const STEP_LEVELS: usize = 320;

impl LevelSearch {
    // The code of a light, clipped.
    pub fn code_of(self, light: i32) -> u16
        ensures { result ≡ code_of_light (bits self.depth) light }
    {
        let offset = 192 * step_of(self.depth);
        let level = self.level_of(light.unsigned_abs()) as u16;
        if light < 0 {
            offset.saturating_sub(level)
        } else {
            offset + level
        }
    }

    // The level of a light without its sign, at most the greatest level of a code. The start leaves few levels,
    // and each turn leaves a half. There is no branch, because the processor could not predict it.
    fn level_of(self, light: u32) -> usize
        ensures { result ≡ min (level_of_light (scale (bits self.depth)) light) (levels (bits self.depth) - 1) }
    {
        let mut level = self.start_of(light);
        for half in [4, 2, 1] {
            level += half * usize::from(self.thresholds[level + half] <= light);
        }
        level
    }

    // Where the search for a level starts. An entry is a level of 12 bits, whose step is 8. The table of thresholds is as
    // long as the product, but that is a constant in the loop of each depth, so that the compiler makes no branch of it.
    fn start_of(self, light: u32) -> usize
        ensures { result ≡ start_of (step (bits self.depth)) self.starts.now light }
    {
        let step = step_of(self.depth) as usize;
        let first = self.starts[group_of(light)] as usize * step / 8;
        first.min(STEP_LEVELS * step - FEW_LEVELS)
    }
}
