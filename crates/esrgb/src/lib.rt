// e-sRGB codes, one sample at a time (rules, section 1): the depths that are offered, sRGB to e-sRGB and
// back, which codes sRGB cannot hold, and one depth to another. It promises that a rule computes the
// definition of its depth, for every sample.
#![tactic(auto)]

ghost use Rattle.std.specs.Prelude.{◌≡◌, ℕ};
ghost use Rattle.esrgb.specs.Depths.{bits, Names, greatest, step};
ghost use Rattle.esrgb.specs.Codes.{from_srgb, to_srgb};
ghost use Rattle.esrgb.specs.HowApplied.{affine, to_eight, round, line_of, cut_of, gamut_of, above_lowest, outside, change_of};

use numbers::{excess, saturating_add};
use refusal::Refusal;

// A depth of e-sRGB.
#[derive(Clone, Copy, Debug, PartialEq, Eq)]
pub enum Depth {
    Ten,
    Twelve,
    Sixteen,
}

impl TryFrom<u32> for Depth {
    type Error = Refusal;

    ghost try_from_gives = { Names };

    fn try_from(bits: u32) -> Result<Depth, Refusal> {
        match bits {
            10 => Ok(Depth::Ten),
            12 => Ok(Depth::Twelve),
            16 => Ok(Depth::Sixteen),
            _ => Err(Refusal::DepthNotOffered),
        }
    }
}

// ---- the numbers of a depth
// Each is a table of three numbers; a function that took them would say no more.

// The bits of a code.
fn bits_of(depth: Depth) -> u16
    ensures { result ≡ bits depth }
{
    match depth {
        Depth::Ten => 10,
        Depth::Twelve => 12,
        Depth::Sixteen => 16,
    }
}

// The step from one sRGB value to the next. Every other number of a depth is a multiple of it.
pub fn step_of(depth: Depth) -> u16
    ensures { result ≡ step (bits depth) }
{
    match depth {
        Depth::Ten => 2,
        Depth::Twelve => 8,
        Depth::Sixteen => 128,
    }
}

// The greatest code.
pub fn greatest_of(depth: Depth) -> u16
    ensures { result ≡ greatest (bits depth) }
{
    match depth {
        Depth::Ten => 1023,
        Depth::Twelve => 4095,
        Depth::Sixteen => 65535,
    }
}

// ---- rules for samples

// What is done to each sample of a picture. The numbers of a depth are worked out once, before the
// loop, and the loop's arithmetic is on 16 bits, so that a compiler can do several samples at once.
pub trait SampleRule: Copy {
    ghost applied: { Self → ℕ → ℕ };

    fn apply(self, sample: u16) -> u16
        ensures { result ≡ applied self sample };
}

// factor * sample + offset, in 16 bits.
#[derive(Clone, Copy)]
pub struct Line {
    pub factor: u16,
    pub offset: u16,
}

impl SampleRule for Line {
    ghost applied = { affine };

    #[tactic(auto, unfolding(crate::specs::HowApplied::affine))]
    fn apply(self, sample: u16) -> u16 {
        self.factor.wrapping_mul(sample).wrapping_add(self.offset)
    }
}

// (sample - low) / 2^shift, from 0 to 255.
#[derive(Clone, Copy)]
pub struct Cut {
    pub low: u16,
    pub shift: u16,
}

impl SampleRule for Cut {
    ghost applied = { to_eight };

    #[tactic(auto, unfolding(crate::specs::HowApplied::to_eight))]
    fn apply(self, sample: u16) -> u16 {
        let value = excess(sample, self.low) >> (self.shift % 16);
        value.min(255)
    }
}

// (sample + lift) / 2^shift - base, in 16 bits, where the sum is at most 65,535.
#[derive(Clone, Copy)]
pub struct Rounding {
    pub lift: u16,
    pub shift: u16,
    pub base: u16,
}

impl SampleRule for Rounding {
    ghost applied = { round };

    // The sum stops where codes are clipped, so that none needs a test. The difference may wrap: as one that
    // stops at 0 it was slower.
    #[tactic(auto, unfolding(crate::specs::HowApplied::round))]
    fn apply(self, sample: u16) -> u16 {
        let quotient = saturating_add(sample, self.lift) >> (self.shift % 16);
        quotient.wrapping_sub(self.base)
    }
}

// The rule from sRGB.
pub fn line_of(depth: Depth) -> Line
    ensures { result ≡ line_of (bits depth) }
{
    let step = step_of(depth);
    Line {
        factor: step,
        offset: 192 * step,
    }
}

// The rule to sRGB. From half a step below the offset on, the nearest value is no longer below 0.
pub fn cut_of(depth: Depth) -> Cut
    ensures { result ≡ cut_of (bits depth) }
{
    let step = step_of(depth);
    Cut {
        low: 192 * step - step / 2,
        shift: bits_of(depth) - 9,
    }
}

// The codes that sRGB holds: from the lowest on, up to a span above it.
#[derive(Clone, Copy)]
pub struct Gamut {
    pub lowest: u16,
    pub span: u16,
}

pub fn gamut_of(depth: Depth) -> Gamut
    ensures { result ≡ gamut_of (bits depth) }
{
    let step = step_of(depth);
    Gamut {
        lowest: 192 * step,
        span: 255 * step,
    }
}

// How far a code is above the lowest that sRGB holds. One below it wraps to the top of 16 bits, so that one
// test tells codes that are too low and codes that are too high.
pub fn above_lowest(gamut: Gamut, code: u16) -> u16
    ensures { result ≡ above_lowest gamut code }
{
    code.wrapping_sub(gamut.lowest)
}

// Is it a code that sRGB cannot hold?
pub fn is_outside(gamut: Gamut, code: u16) -> bool
    ensures { result ≡ outside gamut code }
{
    gamut.span < above_lowest(gamut, code)
}

// The rule from one depth to another: by a factor, or to the nearest code.
#[derive(Clone, Copy)]
pub enum DepthChange {
    Up(Line),
    Down(Rounding),
}

pub fn change_of(from: Depth, to: Depth) -> DepthChange
    ensures { result ≡ change_of (bits from) (bits to) }
{
    let n = bits_of(from);
    let m = bits_of(to);
    if n <= m {
        DepthChange::Up(Line {
            factor: 1 << (m - n),
            offset: 0,
        })
    } else {
        // Codes are lifted to the end of 16 bits: where the sum stops, they are clipped.
        let shift = n - m;
        let above = 65535 - greatest_of(from);
        DepthChange::Down(Rounding {
            lift: above + (1 << (shift - 1)),
            shift,
            base: above >> shift,
        })
    }
}

// One value of sRGB as a code.
pub fn from_srgb(depth: Depth, value: u8) -> u16
    ensures { result ≡ from_srgb (bits depth) value }
{
    step_of(depth) * (value as u16 + 192)
}

// A code as a value of sRGB, and whether it is a code that sRGB cannot hold.
#[derive(Clone, Copy)]
pub struct SrgbSample {
    pub value: u8,
    pub clipped: bool,
}

pub fn to_srgb(depth: Depth, code: u16) -> SrgbSample
    ensures { result ≡ to_srgb (bits depth) code }
{
    let value = cut_of(depth).apply(code) as u8;
    SrgbSample {
        value,
        clipped: is_outside(gamut_of(depth), code),
    }
}
