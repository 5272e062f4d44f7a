// Convert: pictures in byte buffers, from one form to another (rules, section 4). It promises the answer,
// every byte and how many pixels sRGB clips, for any buffers and any depths: a refused call changes nothing,
// and an accepted one leaves the source's pixels, converted one by one.
#![tactic(auto)]

ghost use Rattle.std.specs.Prelude.{◌≡◌, true, false, [], ◌∷◌, ◌++◌, map, ◌*◌, ◌+◌, ◌≤◌, length, take};
ghost use Rattle.numbers.specs.Counting.{how_many};
ghost use Rattle.refusal.specs.Answers.{leaves};
ghost use Rattle.samples.specs.Samples.{place, samples_of, sample_bytes, bytes_of, read, write};
ghost use Rattle.samples.specs.Faults.{Exact, wide_coding};
ghost use Rattle.esrgb.specs.Depths.{bits, greatest};
ghost use Rattle.esrgb.specs.HowApplied.{to_eight, changed, gamut_of};
ghost use Rattle.picture.specs.Forms.{wide_form};
ghost use Rattle.picture.specs.Convert.{source, target, converted, convert_says, convert_bytes, clipped, convert_clips, converted_said, clips_of};
ghost use Rattle.picture.specs.HowConverted.{done_by, sides_of, narrowed, Gives, block_size, some_outside, pixel_outside, reads_wide, writes_wide, made, counted, Planned, plan_says};

use esrgb::{Cut, Depth, DepthChange, Gamut, Line, SampleRule};
use numbers::{raised, rank_of, two_bytes};
use refusal::{Fault, Refusal};
use samples::{Coding, Pixel};

// The conversions of rule 4.1. A depth may be any number, as C gives it; `convert` promises to refuse what rule 1.1 does
// not offer.
#[derive(Clone, Copy)]
pub enum Conversion {
    FromSrgb { depth: u32 },
    ToSrgb { depth: u32 },
    ChangeDepth { from: u32, to: u32 },
    ToLumaChroma { depth: u32 },
    FromLumaChroma { depth: u32 },
    ToEsycc { depth: u32 },
    FromEsycc { depth: u32 },
    ToSycc { depth: u32 },
    FromSycc { depth: u32 },
}

// ---- the loop over samples
// Whether samples are wide, in the source and in the destination, is a parameter: beside the bound of a closure the check
// fails on a const one.

// Writes sample k. What stands behind it is not said: the loops write every sample, in order. A cast may lose no bit,
// so the remainder says which are kept.
fn put(dst: &mut [u8], wide: bool, k: usize, x: u16)
    requires { place wide (k + 1) ≤ length dst.old }
    ensures { take (place wide (k + 1)) dst.new ≡ take (place wide k) dst.old ++ sample_bytes wide x }
{
    if wide {
        let [low, high] = two_bytes(x);
        dst[2 * k] = low;
        dst[2 * k + 1] = high;
    } else {
        dst[k] = (x % 256) as u8;
    }
}

// One text for every conversion that works sample by sample. Each type of rule has a loop of its own, and each
// call says whether the samples are wide, in the source and in the destination.
#[tactic(auto, using(crate::proofs::Filling::one_more, crate::proofs::Filling::samples_done))]
fn fill_samples<R: SampleRule>(rule: R, wide_in: bool, wide_out: bool, src: &[u8], dst: &mut [u8])
    requires { Exact wide_in wide_out (length src.now) (length dst.old) }
    ensures { dst.new ≡ bytes_of wide_out (map (R.applied rule) (samples_of wide_in src.now)) }
{
    for k in 0..samples::sample_count(wide_in, src.len()) {
        let x = samples::sample(src, wide_in, k);
        put(dst, wide_out, k, rule.apply(x));
    }
}

// A change of depth, by the rule that it is.
fn fill_change(change: DepthChange, src: &[u8], dst: &mut [u8])
    requires { Exact true true (length src.now) (length dst.old) }
    ensures { dst.new ≡ bytes_of true (map (changed change) (samples_of true src.now)) }
{
    match change {
        DepthChange::Up(line) => fill_samples(line, true, true, src, dst),
        DepthChange::Down(rounding) => fill_samples(rounding, true, true, src, dst),
    }
}

// ---- to sRGB, and how many pixels it clips

// Writes samples as bytes of sRGB, and tells whether sRGB cannot hold one of them. What is kept for that is the
// greatest that one is above the lowest code of sRGB, by its rank, from 0 on.
fn narrow_samples(cut: Cut, gamut: Gamut, src: &[u8], dst: &mut [u8]) -> bool
    requires { Exact true false (length src.now) (length dst.old) }
    ensures bytes { dst.new ≡ bytes_of false (map (to_eight cut) (samples_of true src.now)) }
    ensures clips { result ≡ some_outside gamut (samples_of true src.now) }
{
    let mut top = i16::MIN;
    for k in 0..samples::sample_count(true, src.len()) {
        let x = samples::sample(src, true, k);
        put(dst, false, k, cut.apply(x));
        top = raised(top, esrgb::above_lowest(gamut, x));
    }
    gamut.span < rank_of(top)
}

// The numbers of a depth, which are constants where the caller names the depth.
fn narrow_at(depth: Depth, src: &[u8], dst: &mut [u8]) -> bool
    requires { Exact true false (length src.now) (length dst.old) }
    ensures bytes { dst.new ≡ narrowed (bits depth) src.now }
    ensures clips { result ≡ some_outside (gamut_of (bits depth)) (samples_of true src.now) }
{
    narrow_samples(esrgb::cut_of(depth), esrgb::gamut_of(depth), src, dst)
}

// Each depth has a call of its own, and so a loop in which its numbers are constants: by a constant shift a
// compiler packs 16 samples at once.
fn narrow(depth: Depth, src: &[u8], dst: &mut [u8]) -> bool
    requires { Exact true false (length src.now) (length dst.old) }
    ensures bytes { dst.new ≡ narrowed (bits depth) src.now }
    ensures clips { result ≡ some_outside (gamut_of (bits depth)) (samples_of true src.now) }
{
    match depth {
        Depth::Ten => narrow_at(Depth::Ten, src, dst),
        Depth::Twelve => narrow_at(Depth::Twelve, src, dst),
        Depth::Sixteen => narrow_at(Depth::Sixteen, src, dst),
    }
}

// Is one of a pixel's channels clipped? One answer for the three, with no branch between them.
fn is_clipped(gamut: Gamut, p: Pixel) -> bool
    ensures { result ≡ pixel_outside gamut p }
{
    esrgb::is_outside(gamut, p.first)
        | esrgb::is_outside(gamut, p.second)
        | esrgb::is_outside(gamut, p.third)
}

// How many pixels are brought to sRGB at a time. If none of them is clipped, they are not looked at again.
const BLOCK: usize = 16384;

// The clipped pixels of a block. A compiler counts several at once in 32 bits, and not in 64.
fn count_clipped(gamut: Gamut, src: &[u8]) -> u32
    requires { length (read true src.now) ≤ block_size }
    ensures { result ≡ how_many (pixel_outside gamut) (read true src.now) }
{
    let mut count = 0;
    for j in 0..src.len() / samples::pixel_size(true) {
        let p = samples::pixel_at(src, true, j);
        count += is_clipped(gamut, p) as u32;
    }
    count
}

// A block, and how many of its pixels are clipped.
#[tactic(auto, using(crate::proofs::Narrowing::counts_none))]
fn narrow_block(depth: Depth, src: &[u8], dst: &mut [u8]) -> usize
    requires room { Exact true false (length src.now) (length dst.old) }
    requires few { length (read true src.now) ≤ block_size }
    ensures bytes { dst.new ≡ narrowed (bits depth) src.now }
    ensures count { result ≡ how_many (pixel_outside (gamut_of (bits depth))) (read true src.now) }
{
    if narrow(depth, src, dst) {
        count_clipped(esrgb::gamut_of(depth), src) as usize
    } else {
        0
    }
}

// Block after block. A pixel has 6 bytes of codes, and 3 of sRGB.
fn fill_srgb(depth: Depth, src: &[u8], dst: &mut [u8]) -> usize
    requires { Exact true false (length src.now) (length dst.old) }
    ensures bytes { dst.new ≡ narrowed (bits depth) src.now }
    ensures count { result ≡ how_many (clipped (bits depth)) (read true src.now) }
{
    let pixels = src.len() / samples::pixel_size(true);
    let mut count = 0;
    for start in (0..pixels).step_by(BLOCK) {
        let end = start + BLOCK.min(pixels - start);
        let block = &src[6 * start..6 * end];
        count += narrow_block(depth, block, &mut dst[3 * start..3 * end]);
    }
    count
}

// ---- the loop over pixels

// What is done to each pixel of a picture.
#[derive(Clone, Copy)]
pub enum PixelRule {
    ToLumaChroma,
    FromLumaChroma,
    ToEsycc,
    FromEsycc,
    ToSycc,
    FromSycc,
}

// Writes pixel i. As of `put`, what stands behind it is not said.
fn put_pixel(dst: &mut [u8], wide: bool, i: usize, p: Pixel)
    requires { place wide (3 * (i + 1)) ≤ length dst.old }
    ensures { take (place wide (3 * (i + 1))) dst.new ≡ take (place wide (3 * i)) dst.old ++ write wide (p ∷ []) }
{
    let k = 3 * i;
    put(dst, wide, k, p.first);
    put(dst, wide, k + 1, p.second);
    put(dst, wide, k + 2, p.third);
}

// The conversions that need a whole pixel at a time. It goes by value from the bytes read to the bytes written.
// Each closure has a loop of its own: of calls that differ in a constant only, in the arms of one `match`, the
// compiler would make one loop. It ends at the quotient that `pixel_at` tests, so that the test is left out.
#[tactic(auto, using(crate::proofs::Filling::pixel_within, crate::proofs::Filling::pixel_more, crate::proofs::Filling::pixels_done))]
fn fill_pixels<F: Fn(Pixel) -> Pixel>(
    convert: F,
    wide_in: bool,
    wide_out: bool,
    src: &[u8],
    dst: &mut [u8],
)
    requires callable { F.IsAlwaysCallable convert }
    requires room { Exact wide_in wide_out (length src.now) (length dst.old) }
    ensures { (f : Pixel → Pixel) → Gives (F.post convert) f → dst.new ≡ write wide_out (map f (read wide_in src.now)) }
{
    for i in 0..src.len() / samples::pixel_size(wide_in) {
        let p = samples::pixel_at(src, wide_in, i);
        put_pixel(dst, wide_out, i, convert(p));
    }
}

// The same with a loop for each depth, in which the depth's factors are constants.
fn fill_at<F: Fn(Depth, Pixel) -> Pixel>(
    depth: Depth,
    convert: F,
    wide_in: bool,
    wide_out: bool,
    src: &[u8],
    dst: &mut [u8],
)
    requires callable { F.IsAlwaysCallable convert }
    requires room { Exact wide_in wide_out (length src.now) (length dst.old) }
    ensures { (f : Pixel → Pixel) → Gives (F.post convert depth) f → dst.new ≡ write wide_out (map f (read wide_in src.now)) }
{
    match depth {
        Depth::Ten => fill_pixels(|p| convert(Depth::Ten, p), wide_in, wide_out, src, dst),
        Depth::Twelve => fill_pixels(|p| convert(Depth::Twelve, p), wide_in, wide_out, src, dst),
        Depth::Sixteen => fill_pixels(|p| convert(Depth::Sixteen, p), wide_in, wide_out, src, dst),
    }
}

// The conversion that a rule does, at a depth. Luma and chroma would be too long for the compiler to make three
// loops of.
#[tactic(auto, unfolding(crate::specs::Convert::converted))]
fn fill_by_rule(rule: PixelRule, depth: Depth, src: &[u8], dst: &mut [u8])
    requires { Exact (wide_form (source (done_by rule (bits depth)))) (wide_form (target (done_by rule (bits depth)))) (length src.now) (length dst.old) }
    ensures { dst.new ≡ converted (done_by rule (bits depth)) src.now }
{
    match rule {
        PixelRule::ToLumaChroma => {
            let convert = |p| lumachroma::to_luma_chroma(depth, p);
            fill_pixels(convert, true, true, src, dst);
        }
        PixelRule::FromLumaChroma => {
            let convert = |p| lumachroma::to_rgb(depth, p);
            fill_pixels(convert, true, true, src, dst);
        }
        PixelRule::ToEsycc => fill_at(depth, esycc::to_esycc, true, true, src, dst),
        PixelRule::FromEsycc => fill_at(depth, esycc::from_esycc, true, true, src, dst),
        PixelRule::ToSycc => fill_at(depth, esycc::to_sycc, true, false, src, dst),
        PixelRule::FromSycc => fill_at(depth, esycc::from_sycc, false, true, src, dst),
    }
}

// ---- the plan of a conversion

// The loop to run, with its numbers. It is chosen before the source is judged and runs after that, and a closure may
// not be handed out; it is matched once a call, and in no loop.
#[derive(Clone, Copy)]
pub enum Work {
    Widen(Line),
    Narrow(Depth),
    Change(DepthChange),
    Pixels(PixelRule, Depth),
}

// Codes of a depth, with or without chroma.
fn codes(depth: Depth, chroma: bool) -> Coding
    ensures { result ≡ Coding.Codes (greatest (bits depth)) chroma }
{
    Coding::Codes {
        greatest: esrgb::greatest_of(depth),
        chroma,
    }
}

// What a rule for pixels reads, and whether it writes wide samples.
#[derive(Clone, Copy)]
pub struct Sides {
    pub reads: Coding,
    pub wide: bool,
}

fn sides_of(rule: PixelRule, depth: Depth) -> Sides
    ensures { result ≡ sides_of (done_by rule (bits depth)) }
{
    match rule {
        PixelRule::ToLumaChroma => Sides {
            reads: codes(depth, false),
            wide: true,
        },
        PixelRule::FromLumaChroma => Sides {
            reads: codes(depth, true),
            wide: true,
        },
        PixelRule::ToEsycc => Sides {
            reads: codes(depth, false),
            wide: true,
        },
        PixelRule::FromEsycc => Sides {
            reads: codes(depth, false),
            wide: true,
        },
        PixelRule::ToSycc => Sides {
            reads: codes(depth, false),
            wide: false,
        },
        PixelRule::FromSycc => Sides {
            reads: Coding::Bytes,
            wide: true,
        },
    }
}

// Does a loop write wide samples?
fn writes_wide(work: Work) -> bool
    ensures { result ≡ writes_wide work }
{
    match work {
        Work::Widen(_) => true,
        Work::Narrow(_) => false,
        Work::Change(_) => true,
        Work::Pixels(rule, depth) => sides_of(rule, depth).wide,
    }
}

// A conversion whose depths are offered: what its source may be, and the loop.
#[derive(Clone, Copy)]
pub struct Plan {
    pub coding: Coding,
    pub work: Work,
}

// The plan of the conversion that a rule for pixels does.
fn pixel_plan(rule: PixelRule, depth: u32) -> Result<Plan, Refusal>
    ensures { Planned (done_by rule depth) result }
{
    let depth = Depth::try_from(depth)?;
    Ok(Plan {
        coding: sides_of(rule, depth).reads,
        work: Work::Pixels(rule, depth),
    })
}

// The one list of conversions: for each, what its source may be and the loop that does it, if its depths
// are offered.
fn planned(conversion: Conversion) -> Result<Plan, Refusal>
    ensures { Planned conversion result }
{
    match conversion {
        Conversion::FromSrgb { depth } => {
            let depth = Depth::try_from(depth)?;
            Ok(Plan {
                coding: Coding::Bytes,
                work: Work::Widen(esrgb::line_of(depth)),
            })
        }
        Conversion::ToSrgb { depth } => {
            let depth = Depth::try_from(depth)?;
            Ok(Plan {
                coding: codes(depth, false),
                work: Work::Narrow(depth),
            })
        }
        Conversion::ChangeDepth { from, to } => {
            let source = Depth::try_from(from)?;
            let target = Depth::try_from(to)?;
            Ok(Plan {
                coding: codes(source, false),
                work: Work::Change(esrgb::change_of(source, target)),
            })
        }
        Conversion::ToLumaChroma { depth } => pixel_plan(PixelRule::ToLumaChroma, depth),
        Conversion::FromLumaChroma { depth } => pixel_plan(PixelRule::FromLumaChroma, depth),
        Conversion::ToEsycc { depth } => pixel_plan(PixelRule::ToEsycc, depth),
        Conversion::FromEsycc { depth } => pixel_plan(PixelRule::FromEsycc, depth),
        Conversion::ToSycc { depth } => pixel_plan(PixelRule::ToSycc, depth),
        Conversion::FromSycc { depth } => pixel_plan(PixelRule::FromSycc, depth),
    }
}

// ---- Convert

// Writes every pixel of the source, converted, and counts those that it clips.
fn fill(work: Work, src: &[u8], dst: &mut [u8]) -> usize
    requires { Exact (reads_wide work) (writes_wide work) (length src.now) (length dst.old) }
    ensures bytes { dst.new ≡ made work src.now }
    ensures count { result ≡ counted work src.now }
{
    match work {
        Work::Widen(line) => {
            fill_samples(line, false, true, src, dst);
            0
        }
        Work::Narrow(depth) => fill_srgb(depth, src, dst),
        Work::Change(change) => {
            fill_change(change, src, dst);
            0
        }
        Work::Pixels(rule, depth) => {
            fill_by_rule(rule, depth, src, dst);
            0
        }
    }
}

// What Convert gives: how many pixels it wrote and, of e-sRGB to sRGB, how many of them have a colour that sRGB
// cannot hold (rule 4.6), which is 0 of every other conversion.
#[derive(Clone, Copy, Debug, PartialEq, Eq)]
pub struct Converted {
    pub pixels: usize,
    pub clipped: usize,
}

// A conversion whose depths are offered: judged first, and then written.
#[tactic(auto, using(samples::proofs::Order::source_exact))]
fn run(plan: Plan, src: &[u8], dst: &mut [u8]) -> Result<Converted, Fault>
    requires { wide_coding plan.coding ≡ reads_wide plan.work }
    ensures answer { converted_said result ≡ plan_says plan src.now (length dst.old) }
    ensures bytes { dst.new ≡ leaves (plan_says plan src.now (length dst.old)) (made plan.work src.now) dst.old }
    ensures clips { clips_of result ≡ leaves (plan_says plan src.now (length dst.old)) (counted plan.work src.now) 0 }
{
    let pixels = samples::examine(plan.coding, writes_wide(plan.work), src, dst.len())?;
    let clipped = fill(plan.work, src, dst);
    Ok(Converted { pixels, clipped })
}

// Converts the picture src into dst, or refuses and leaves dst as it was. Every sample is judged before a
// byte is written.
#[tactic(auto, using(crate::proofs::Answering::not_offered, crate::proofs::Answering::planned_says, crate::proofs::Answering::planned_leaves, crate::proofs::Answering::planned_clips))]
pub fn convert(conversion: Conversion, src: &[u8], dst: &mut [u8]) -> Result<Converted, Fault>
    ensures answer { converted_said result ≡ convert_says conversion src.now (length dst.old) }
    ensures bytes { dst.new ≡ convert_bytes conversion src.now dst.old }
    ensures clips { clips_of result ≡ convert_clips conversion src.now (length dst.old) }
{
    let plan = planned(conversion)?;
    run(plan, src, dst)
}
