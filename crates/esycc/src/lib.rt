// e-sYCC and 8-bit sYCC of one pixel of e-sRGB codes, and the ways back (rules, section 12; PIMA 7667,
// annexes B and C). It promises the three numbers of the definitions for every pixel of 16-bit samples, so
// that it asks nothing of a caller.
#![tactic(auto)]

ghost use Rattle.std.specs.Prelude.{◌≡◌, ◌+◌, ◌-◌, ◌*◌, ◌/◌, ◌≤◌, ◌<◌, min, max};
ghost use Rattle.esrgb.specs.Depths.{bits, greatest, middle, offset, step};
ghost use Rattle.esycc.specs.Esycc.{weighted, to_esycc, from_esycc};
ghost use Rattle.esycc.specs.Sycc.{to_sycc, from_sycc};
ghost use Rattle.esycc.specs.HowCounted.{codes_at, lift, most_sum, most_difference, most_low, most_middle, most_divisor, most_luma_factor, most_chroma_factor, top, bottom, Terms, factors_by, luma_sum, chroma_sum, Few, sums_by, back_lift, back_start, back_top, back_half, most_top, most_weight, BackTerms, share_by, adding_row, taking_row, rows_by, with_chroma, less_chroma, back_unit, back_sums_by, most_luma, most_chroma, most_share, most_taken, most_luma_share, FewRows};

use esrgb::{Depth, greatest_of, step_of};
use samples::Pixel;

// ---- sums and codes

// The three channels of a pixel, not yet clipped.
#[derive(Clone, Copy)]
struct Sums {
    first: u32,
    second: u32,
    third: u32,
}

// A sum that stands too high by low, clipped.
fn clip(most: u16, low: u32, sum: u32) -> u16
    requires { low ≤ back_lift }
    ensures { result ≡ min most (sum - low) }
{
    (sum.clamp(low, low + most as u32) - low) as u16
}

impl Sums {
    // The codes of sums that stand too high by low. Nearly every pixel needs no clipping, and one test says so: a
    // sum below low wraps to far above every code. A cast may lose no bit, so the remainder says which are kept.
    fn codes(self, most: u16, low: u32) -> Pixel
        requires { low ≤ back_lift }
        ensures { result ≡ codes_at most low self }
    {
        let first = self.first.wrapping_sub(low);
        let second = self.second.wrapping_sub(low);
        let third = self.third.wrapping_sub(low);
        if (first | second | third) <= most as u32 {
            Pixel {
                first: (first % 65536) as u16,
                second: (second % 65536) as u16,
                third: (third % 65536) as u16,
            }
        } else {
            Pixel {
                first: clip(most, low, self.first),
                second: clip(most, low, self.second),
                third: clip(most, low, self.third),
            }
        }
    }

    // Of sums back to e-sRGB: they stand too high by the lift less the offset.
    fn codes_back(self, depth: Depth) -> Pixel
        ensures { result ≡ codes_at (greatest (bits depth)) (back_lift - offset (bits depth)) self }
    {
        self.codes(
            greatest_of(depth),
            BACK_LIFT - 192 * (step_of(depth) as u32),
        )
    }
}

// ---- from e-sRGB
// A code is (start + factor * x) / UNIT, where the factor is rounded down, and the start holds the half that
// rounds and what makes up for the factor's rounding. So no pixel waits for a division.

// A code has 2^46 units: fewer would not decide every rounding, and with more a sum would not fit.
const UNIT: u64 = 70368744177664;

// What a sum stands too high until it is clipped.
const LIFT: u32 = 65536;

// The greatest weighted sum, and the most by which 1000 times a channel is above or below it.
const MOST_SUM: u64 = 65535000;

const MOST_DIFFERENCE: u32 = 58064010;

// What luma and the chromas are multiplied by, in units.
#[derive(Clone, Copy)]
struct Factors {
    luma: u64,
    cb: u64,
    cr: u64,
}

// The factors where the greatest code is to the scale as p to q, and the chromas have these divisors. The numbers
// stand alone, since the tables below would be longer by a struct's names, and no plainer.
fn factors_by(p: u64, q: u64, blue: u64, red: u64) -> Factors
    requires { Terms p q × ((1 ≤ blue) × (blue ≤ most_divisor)) × ((1 ≤ red) × (red ≤ most_divisor)) }
    ensures { result ≡ factors_by p q blue red }
{
    Factors {
        luma: p * UNIT / (1000 * q),
        cb: p * UNIT / (blue * q),
        cr: p * UNIT / (red * q),
    }
}

// Each arm names its numbers, so that the factors are constants to a compiler. Those of e-sYCC and of sYCC are two
// tables: a function for both would take a table, and be no plainer.
fn esycc_factors(depth: Depth) -> Factors
    ensures { result ≡ factors_by (top depth) (bottom depth) 3544 2804 }
{
    match depth {
        Depth::Ten => factors_by(341, 170, 3544, 2804),
        Depth::Twelve => factors_by(273, 136, 3544, 2804),
        Depth::Sixteen => factors_by(257, 128, 3544, 2804),
    }
}

// A byte's 255 is to the scale as 1 to the step.
fn sycc_factors(depth: Depth) -> Factors
    ensures { result ≡ factors_by 1 (step (bits depth)) 1772 1402 }
{
    match depth {
        Depth::Ten => factors_by(1, 2, 1772, 1402),
        Depth::Twelve => factors_by(1, 8, 1772, 1402),
        Depth::Sixteen => factors_by(1, 128, 1772, 1402),
    }
}

// 1000 times luma of the codes, with 1000 offsets in it.
fn weighted_sum(p: Pixel) -> u32
    ensures { result ≡ weighted p }
{
    299 * (p.first as u32) + 587 * (p.second as u32) + 114 * (p.third as u32)
}

// Luma: the weighted sum, counted from 1000 offsets.
#[tactic(auto, unfolding(crate::specs::HowCounted::luma_sum))]
fn luma_sum(factor: u64, low: u32, sum: u32) -> u32
    requires { (factor ≤ most_luma_factor) × (low ≤ most_low) × (sum ≤ most_sum) }
    ensures { result ≡ luma_sum factor low sum }
{
    let start = (LIFT as u64) * UNIT + UNIT / 2 + MOST_SUM - factor * (low as u64);
    ((start + factor * (sum as u64)) / UNIT) as u32
}

// A chroma: how far 1000 times a channel is above the weighted sum, counted from the least that this can be,
// so that one product does.
#[tactic(auto, unfolding(crate::specs::HowCounted::chroma_sum))]
fn chroma_sum(factor: u64, origin: u16, channel: u16, sum: u32) -> u32
    requires { (factor ≤ most_chroma_factor) × (origin ≤ most_middle) × (sum ≤ 1000 * channel + most_difference) }
    ensures { result ≡ chroma_sum factor origin channel sum }
{
    let least = MOST_DIFFERENCE as u64;
    let start = ((LIFT as u64) + (origin as u64)) * UNIT + UNIT / 2 + least - factor * least;
    let above = 1000 * (channel as u32) + MOST_DIFFERENCE - sum;
    ((start + factor * (above as u64)) / UNIT) as u32
}

impl Factors {
    // Luma and the chromas of a pixel of codes, where origin is the code of no chroma.
    fn encode(self, origin: u16, step: u16, p: Pixel) -> Sums
        requires { Few self × (origin ≤ most_middle) × (step ≤ 128) }
        ensures { result ≡ sums_by self origin (192000 * step) p }
    {
        let sum = weighted_sum(p);
        Sums {
            first: luma_sum(self.luma, 192000 * (step as u32), sum),
            second: chroma_sum(self.cb, origin, p.third, sum),
            third: chroma_sum(self.cr, origin, p.first, sum),
        }
    }
}

// A pixel of codes, red, green and blue, as e-sYCC of the same depth.
pub fn to_esycc(depth: Depth, p: Pixel) -> Pixel
    ensures { result ≡ to_esycc (bits depth) p }
{
    let step = step_of(depth);
    let sums = esycc_factors(depth).encode(256 * step, step, p);
    sums.codes(greatest_of(depth), LIFT)
}

// A chroma of sYCC is clipped before it is encoded, and so 0.5 at least, which is rounded to 1.
fn at_least_one(sum: u32) -> u32
    ensures { result ≡ max (lift + 1) sum }
{
    sum.max(LIFT + 1)
}

// A pixel of codes as sYCC.
pub fn to_sycc(depth: Depth, p: Pixel) -> Pixel
    ensures { result ≡ to_sycc (bits depth) p }
{
    let sums = sycc_factors(depth).encode(128, step_of(depth), p);
    let clipped = Sums {
        second: at_least_one(sums.second),
        third: at_least_one(sums.third),
        ..sums
    };
    clipped.codes(255, LIFT)
}

// ---- to e-sRGB
// A channel is a start, luma and the shares of the chromas in units, as above.

// Samples have fewer bits than the sums above, so that 2^38 units to a code decide every rounding.
const BACK_UNIT: u64 = 274877906944;

// Samples that are no bytes make sYCC go far below 0.
const BACK_LIFT: u32 = 16777216;

// What the shares can lack in all, since each is rounded down.
const BACK_ALLOWANCE: u64 = 524288;

const BACK_START: u64 = (BACK_LIFT as u64) * BACK_UNIT + BACK_UNIT / 2 + BACK_ALLOWANCE;

// What a channel counts the chromas, in units.
#[derive(Clone, Copy)]
struct Shares {
    cb: u64,
    cr: u64,
}

impl Shares {
    fn of(self, cb: u32, cr: u32) -> u64
        requires { (self.cb ≤ most_share) × (self.cr ≤ most_share) × (cb ≤ most_chroma) × (cr ≤ most_chroma) }
        ensures value { result ≡ self.cb * cb + self.cr * cr }
        ensures most { result ≤ most_share * (cb + cr) }
    {
        self.cb * (cb as u64) + self.cr * (cr as u64)
    }
}

// A channel's start, which holds the shares of no chroma, and its shares of the chromas.
#[derive(Clone, Copy)]
struct Row {
    start: u64,
    shares: Shares,
}

// The share of luma, and the rows of the channels. The chromas are added to red and blue, and taken away from
// green.
#[derive(Clone, Copy)]
struct Rows {
    luma: u64,
    red: Row,
    green: Row,
    blue: Row,
}

// So many ten-thousandths of p / q, in units.
fn share(weight: u64, p: u64, q: u64) -> u64
    requires { (weight ≤ most_weight) × (p ≤ most_top) × (1 ≤ q) }
    ensures { result ≡ share_by weight p q }
{
    weight * p * BACK_UNIT / q
}

// The rows where the scale is to 10000 times what stands for 1 as p to q, and grey stands for no chroma.
fn rows_by(p: u64, q: u64, grey: u32) -> Rows
    requires { BackTerms p q grey }
    ensures luma { result.luma ≡ share_by 10000 p q }
    ensures red { result.red ≡ adding_row (share_by 0 p q) (share_by 28040 p q) grey }
    ensures green { result.green ≡ taking_row (share_by 6882 p q) (share_by 14282 p q) grey }
    ensures blue { result.blue ≡ adding_row (share_by 35440 p q) (share_by 3 p q) grey }
{
    let red = Shares {
        cb: share(0, p, q),
        cr: share(28040, p, q),
    };
    let green = Shares {
        cb: share(6882, p, q),
        cr: share(14282, p, q),
    };
    let blue = Shares {
        cb: share(35440, p, q),
        cr: share(3, p, q),
    };
    Rows {
        luma: share(10000, p, q),
        red: Row {
            start: BACK_START - red.of(grey, grey),
            shares: red,
        },
        green: Row {
            start: BACK_START + green.of(grey, grey),
            shares: green,
        },
        blue: Row {
            start: BACK_START - blue.of(grey, grey),
            shares: blue,
        },
    }
}

// Two tables again.
fn esycc_rows(depth: Depth) -> Rows
    ensures { result ≡ rows_by (back_top depth) (2 * back_half depth) (middle (bits depth)) }
{
    match depth {
        Depth::Ten => rows_by(17, 341000, 512),
        Depth::Twelve => rows_by(17, 341250, 2048),
        Depth::Sixteen => rows_by(16, 321250, 32768),
    }
}

fn sycc_rows(depth: Depth) -> Rows
    ensures { result ≡ rows_by (step (bits depth)) 40000 255 }
{
    match depth {
        Depth::Ten => rows_by(2, 40000, 255),
        Depth::Twelve => rows_by(8, 40000, 255),
        Depth::Sixteen => rows_by(128, 40000, 255),
    }
}

// So many units, in whole codes.
fn whole_codes(units: u64) -> u32
    ensures { result ≡ units / back_unit }
{
    (units / BACK_UNIT) as u32
}

impl Rows {
    // The channels of a luma and two chromas, not yet clipped.
    #[tactic(auto, unfolding(crate::specs::HowCounted::with_chroma, crate::specs::HowCounted::less_chroma))]
    fn decode(self, y: u32, cb: u32, cr: u32) -> Sums
        requires { FewRows self × (y ≤ most_luma) × (cb ≤ most_chroma) × (cr ≤ most_chroma) }
        ensures first { result.first ≡ (back_sums_by self y cb cr).first }
        ensures second { result.second ≡ (back_sums_by self y cb cr).second }
        ensures third { result.third ≡ (back_sums_by self y cb cr).third }
    {
        let luma = self.luma * (y as u64);
        Sums {
            first: whole_codes(self.red.start + luma + self.red.shares.of(cb, cr)),
            second: whole_codes(self.green.start + luma - self.green.shares.of(cb, cr)),
            third: whole_codes(self.blue.start + luma + self.blue.shares.of(cb, cr)),
        }
    }
}

// A pixel of e-sYCC as codes of the same depth.
pub fn from_esycc(depth: Depth, p: Pixel) -> Pixel
    ensures { result ≡ from_esycc (bits depth) p }
{
    let sums = esycc_rows(depth).decode(p.first as u32, p.second as u32, p.third as u32);
    sums.codes_back(depth)
}

// A pixel of sYCC as codes. Luma counts four times and a chroma twice, so that all are over 1020.
pub fn from_sycc(depth: Depth, p: Pixel) -> Pixel
    ensures { result ≡ from_sycc (bits depth) p }
{
    let sums = sycc_rows(depth).decode(
        4 * (p.first as u32),
        2 * (p.second as u32),
        2 * (p.third as u32),
    );
    sums.codes_back(depth)
}
