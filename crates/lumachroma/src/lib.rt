// Luma and chroma of one pixel, and the way back (rules, section 2), with BT.601-5's luma weights. It
// promises the three numbers of the definitions for every pixel of 16-bit samples, so that it asks
// nothing of a caller.
#![tactic(auto)]

ghost use Rattle.std.specs.Prelude.{◌≡◌, ◌+◌, ◌-◌, ◌*◌, ◌/◌, ◌%◌, ◌^◌, ◌≤◌, ◌<◌, min};
ghost use Rattle.esrgb.specs.Depths.{bits, middle};
ghost use Rattle.lumachroma.specs.LumaChroma.{luma, chroma, to_luma_chroma, to_rgb};
ghost use Rattle.lumachroma.specs.HowDivided.{span, bias, weighted, rest_of, biased_dividend, InRange, Estimates, Biased, Middle, lift, green_of_cb, green_of_cr, starts_at};

use esrgb::{Depth, step_of};
use samples::Pixel;

// ---- luma and chroma
// A quotient is estimated from shares of the channels, and what the estimate leaves of the dividend gives the
// rest of it. Of each number 16 bits are enough, so that a compiler works on eight pixels at once.

// How many numbers 16 bits hold. A remainder by it is a number's last 16 bits: a cast may lose no bit.
const SPAN: u32 = 65536;

// What a channel counts in luma and in a chroma, to the nearest part, where SPAN parts are the whole channel. In
// its own chroma a channel counts a half.
const LUMA_OF_RED: u16 = 19595;

const LUMA_OF_GREEN: u16 = 38470;

const LUMA_OF_BLUE: u16 = 7471;

const CB_OF_RED: u16 = 11058;

const CB_OF_GREEN: u16 = 21710;

const CR_OF_GREEN: u16 = 27439;

const CR_OF_BLUE: u16 = 5329;

// What the quotient of a chroma stands too high, so that it is not below 0: the middle code of 16 bits.
const BIAS: u32 = 32768;

// The same of its estimate: two lower, because shares are taken away from it, and rounding these two down
// makes it greater.
const ESTIMATE_BIAS: u16 = 32766;

// So many parts of a sample, rounded down.
fn share(sample: u16, parts: u16) -> u16
    ensures { result ≡ sample * parts / span }
{
    ((sample as u32) * (parts as u32) / SPAN) as u16
}

// 1000 times luma, not rounded: its last 16 bits. Chroma comes from it too, and so never from rounded luma.
fn weighted_sum(p: Pixel) -> u16
    ensures { result ≡ weighted p % span }
{
    ((299 * (p.first as u32) + 587 * (p.second as u32) + 114 * (p.third as u32)) % SPAN) as u16
}

// What an estimate of dividend / den leaves of the dividend. That is less than SPAN, and so the last 16 bits of
// the dividend tell it.
#[tactic(auto, unfolding(crate::specs::HowDivided::rest_of))]
fn rest(dividend: u32, den: u32, estimate: u16) -> u16
    requires { (dividend ≤ 2 ^ 31) × (den ≤ 2000) }
    ensures { result ≡ rest_of dividend den estimate }
{
    ((dividend + den * SPAN - den * (estimate as u32)) % SPAN) as u16
}

// Luma (rule 2.2).
fn luma_of(p: Pixel) -> u16
    ensures { result ≡ luma p.first p.second p.third }
{
    let estimate = share(p.first, LUMA_OF_RED)
        + share(p.second, LUMA_OF_GREEN)
        + share(p.third, LUMA_OF_BLUE);
    estimate + rest((weighted_sum(p) as u32) + 500, 1000, estimate) / 1000
}

// The bias less the middle code, by two questions and not by a `match` of three arms: that would stay a jump in
// the loop over pixels, and the compiler would take one pixel at a time.
fn above_middle(depth: Depth) -> u16
    ensures { result ≡ bias - middle (bits depth) }
{
    if depth == Depth::Ten {
        (BIAS - 512) as u16
    } else if depth == Depth::Sixteen {
        0
    } else {
        (BIAS - 2048) as u16
    }
}

// What a chroma is worked out from: how far a channel of a pixel is from luma, and an estimate of that over DEN.
// DEN is a constant to the compiler wherever a chroma is worked out.
#[derive(Clone, Copy)]
struct Difference<const DEN: u32> {
    pixel: Pixel,
    channel: u16,
    estimate: u16,
    ghost in_range: { InRange (1000 * channel) (weighted pixel) DEN },
    ghost near: { Estimates (biased_dividend (1000 * channel) (weighted pixel) DEN) DEN estimate },
}

// Of blue chroma (rule 2.3). It and that of red chroma are the data in which the two differ.
fn blue_difference(p: Pixel) -> Difference<1772>
    ensures { (result.pixel ≡ p) × (result.channel ≡ p.third) }
{
    let others = share(p.first, CB_OF_RED) + share(p.second, CB_OF_GREEN);
    Difference {
        pixel: p,
        channel: p.third,
        estimate: ESTIMATE_BIAS + p.third / 2 - others,
    }
}

// Of red chroma.
fn red_difference(p: Pixel) -> Difference<1402>
    ensures { (result.pixel ≡ p) × (result.channel ≡ p.first) }
{
    let others = share(p.second, CR_OF_GREEN) + share(p.third, CR_OF_BLUE);
    Difference {
        pixel: p,
        channel: p.first,
        estimate: ESTIMATE_BIAS + p.first / 2 - others,
    }
}

impl<const DEN: u32> Difference<DEN> {
    // (1000 channel - weighted sum) / DEN to the nearest, ties towards zero, plus the bias. Where it is above 0,
    // one less is divided, so that a tie goes down. The sign matters at a tie alone, and there the channel is so
    // far from luma that luma may be rounded to tell it.
    fn biased_quotient(self) -> u32
        ensures { Biased (1000 * self.entry.channel) (weighted self.entry.pixel) DEN result }
    {
        let tie = u32::from(luma_of(self.pixel) < self.channel);
        let dividend = DEN * BIAS + DEN / 2 + 1000 * (self.channel as u32)
            - (weighted_sum(self.pixel) as u32)
            - tie;
        (self.estimate as u32) + ((rest(dividend, DEN, self.estimate) / (DEN as u16)) as u32)
    }

    // The stored chroma (rule 2.4): the quotient with the middle code of the depth in place of the bias, and 0
    // where that would be less.
    fn stored(self, depth: Depth) -> u16
        ensures { result ≡ chroma (bits depth) (1000 * self.entry.channel) (weighted self.entry.pixel) DEN }
    {
        (self.biased_quotient() as u16).saturating_sub(above_middle(depth))
    }
}

// A pixel of codes, red, green and blue, as luma, blue chroma and red chroma. Each sample is a function of the
// codes; what they have in common a compiler works out once.
pub fn to_luma_chroma(depth: Depth, p: Pixel) -> Pixel
    ensures { result ≡ to_luma_chroma (bits depth) p }
{
    Pixel {
        first: luma_of(p),
        second: blue_difference(p).stored(depth),
        third: red_difference(p).stored(depth),
    }
}

// ---- the way back

// The middle code, in the width of the sums here.
fn middle_of(depth: Depth) -> u32
    ensures { (result ≡ middle (bits depth)) × Middle result }
{
    256 * (step_of(depth) as u32)
}

// What a sum stands too high until it is clipped, so that none is below 0.
const LIFT: u32 = 262144;

// A chroma's share of a channel is counted in units, 2^30 of them to a code, so that a factor and a shift
// do for a division. Factors are rounded down, which the allowance makes up for.
const UNIT: u64 = 1073741824;

const ALLOWANCE: u64 = 65536;

// Where a sum starts: half a unit rounds it.
const START: u64 = (LIFT as u64) * UNIT + UNIT / 2 + ALLOWANCE;

// 1.402 and 1.772.
const RED_OF_CR: u64 = 1505386037;

const BLUE_OF_CB: u64 = 1902670512;

// Green takes finer units, 2^36 to a code: its shares have the denominator 587,000.
const GREEN_UNIT: u64 = 68719476736;

const GREEN_START: u64 = (LIFT as u64) * GREEN_UNIT + GREEN_UNIT / 2 + ALLOWANCE;

// 202,008 / 587,000 and 419,198 / 587,000.
const GREEN_OF_CB: u64 = 23648865513;

const GREEN_OF_CR: u64 = 49075071905;

// Where the sums of a depth start, with the shares of its middle code, from which a chroma is counted.
#[derive(Clone, Copy)]
struct Starts {
    red: u64,
    green: u64,
    blue: u64,
}

fn starts_at(middle: u64) -> Starts
    requires { middle ≤ 32768 }
    ensures { result ≡ starts_at middle }
{
    Starts {
        red: START - RED_OF_CR * middle,
        green: GREEN_START + (GREEN_OF_CB * middle + GREEN_OF_CR * middle),
        blue: START - BLUE_OF_CB * middle,
    }
}

// Each arm names its middle code, so that the starts are constants to a compiler, which would otherwise
// count from the middle in every turn of a loop.
fn starts_of(depth: Depth) -> Starts
    ensures { result ≡ starts_at (middle (bits depth)) }
{
    match depth {
        Depth::Ten => starts_at(512),
        Depth::Twelve => starts_at(2048),
        Depth::Sixteen => starts_at(32768),
    }
}

// Red or blue, not yet clipped: luma plus the start and the chroma's share, in whole codes.
fn add_chroma(start: u64, luma: u16, chroma: u16, factor: u64) -> u32
    requires { (start < 2 ^ 49) × (factor < 2 ^ 31) }
    ensures { result ≡ luma + (start + factor * chroma) / 2 ^ 30 }
{
    (luma as u32) + (((start + factor * (chroma as u64)) / UNIT) as u32)
}

// Green, not yet clipped: luma plus the start less both chromas' shares, in whole codes.
fn green_of(start: u64, luma: u16, cb: u16, cr: u16) -> u32
    requires { (start < 2 ^ 55) × (2 ^ 53 ≤ start) }
    ensures { result ≡ luma + (start - (green_of_cb * cb + green_of_cr * cr)) / 2 ^ 36 }
{
    let shares = GREEN_OF_CB * (cb as u64) + GREEN_OF_CR * (cr as u64);
    (luma as u32) + (((start - shares) / GREEN_UNIT) as u32)
}

// A sum clipped to the codes with this middle code, by clamp, of which the compiler makes no jump. On the way
// back the middle stands for the depth, so that a loop works it out once.
fn clip(middle: u32, sum: u32) -> u16
    requires { Middle middle }
    ensures { result ≡ min (2 * middle - 1) (sum - lift) }
{
    (sum.clamp(LIFT, LIFT + 2 * middle - 1) - LIFT) as u16
}

// The way back. What comes back is a code of the depth, whatever the three numbers are. Nearly every
// pixel needs no clipping, and one test says so: no sum is below LIFT, nor any above the greatest code.
pub fn to_rgb(depth: Depth, p: Pixel) -> Pixel
    ensures { result ≡ to_rgb (bits depth) p }
{
    let middle = middle_of(depth);
    let starts = starts_of(depth);
    let red = add_chroma(starts.red, p.first, p.third, RED_OF_CR);
    let green = green_of(starts.green, p.first, p.second, p.third);
    let blue = add_chroma(starts.blue, p.first, p.second, BLUE_OF_CB);
    if (red | green | blue) % LIFT < 2 * middle {
        Pixel {
            first: (red % SPAN) as u16,
            second: (green % SPAN) as u16,
            third: (blue % SPAN) as u16,
        }
    } else {
        Pixel {
            first: clip(middle, red),
            second: clip(middle, green),
            third: clip(middle, blue),
        }
    }
}
