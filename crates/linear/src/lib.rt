// Linear light in buffers (rule 6.7): e-sRGB codes of every depth to signed millionths of reference white,
// and such numbers to codes of 10 and 12 bits. For every input it promises the answer and every number or
// byte of the destination, by what `transfer` defines for one sample, and asks nothing of a caller.
// `moved` takes codes through light that is moved (rule 6.12).
#![tactic(auto)]

pub mod moved;
mod search;

ghost use Rattle.std.specs.Prelude.{◌≡◌, map, ℕ, ◌+◌, ◌*◌, ◌/◌, ◌^◌, ◌≤◌, ◌<◌, length, get_or};
ghost use Rattle.refusal.specs.Answers.{said, leaves};
ghost use Rattle.samples.specs.Samples.{two_by_two};
ghost use Rattle.esrgb.specs.Depths.{bits, greatest};
ghost use Rattle.transfer.specs.Light.{light_between, level_size, signed, light_of_code};
ghost use Rattle.transfer.specs.HowTabled.{levels};
ghost use Rattle.linear.specs.Operations.{codes_to_light_says, codes_to_light, light_to_codes_says, light_to_codes, light_says, light_said, code_says, code_said, pixel_of_light};

use crate::search::LevelSearch;
use esrgb::{Depth, greatest_of, step_of};
use numbers::two_bytes;
use refusal::{Answer, Refusal};
use samples::{Coding, Pixel, count_pixels, examine, sample};
use transfer::table::light_table;

// Codes to light: each two-byte sample becomes a number. It refuses as Convert does. C lends the depth and the buffers
// apart.
#[tactic(auto, unfolding(samples::specs::Faults::source_says))]
pub fn code_to_light(depth: u32, src: &[u8], dst: &mut [i32]) -> Answer
    ensures answer { said result ≡ codes_to_light_says depth src.now (length dst.old) }
    ensures numbers { dst.new ≡ leaves (codes_to_light_says depth src.now (length dst.old)) (codes_to_light depth src.now) dst.old }
{
    codes_to_light(Depth::try_from(depth)?, src, dst)
}

// The same at a depth that is offered.
fn codes_to_light(depth: Depth, src: &[u8], dst: &mut [i32]) -> Answer
    ensures answer { said result ≡ codes_to_light_says (bits depth) src.now (length dst.old) }
    ensures numbers { dst.new ≡ leaves (codes_to_light_says (bits depth) src.now (length dst.old)) (codes_to_light (bits depth) src.now) dst.old }
{
    let coding = Coding::Codes {
        greatest: greatest_of(depth),
        chroma: false,
    };
    let pixels = examine(coding, false, src, dst.len())?;
    write_lights(depth, src, dst);
    Ok(pixels)
}

// The light of each sample. A code of any depth, times a power of two, is a 16-bit code of the same light.
// The factors are constants so that the compiler makes a loop for each: at 10 and 12 bits it sees that
// every level has an entry of its own, and drops the straight line.
fn write_lights(depth: Depth, src: &[u8], dst: &mut [i32])
    requires room { length dst.old ≡ length src.now / 2 }
    requires codes { (k : ℕ) → get_or (two_by_two src.now) k 0 ≤ greatest (bits depth) }
    ensures { dst.new ≡ codes_to_light (bits depth) src.now }
{
    match depth {
        Depth::Ten => write_multiples::<64>(src, dst),
        Depth::Twelve => write_multiples::<16>(src, dst),
        Depth::Sixteen => write_multiples::<1>(src, dst),
    }
}

// The light of each sample times FACTOR, as a 16-bit code. The loop ends with the samples, so that the compiler leaves
// out the test of `sample`; and codes are numbers of 32 bits, so that it need not cut each to 16.
fn write_multiples<const FACTOR: u32>(src: &[u8], dst: &mut [i32])
    requires room { length dst.old ≡ length src.now / 2 }
    requires codes { (k : ℕ) → FACTOR * get_or (two_by_two src.now) k 0 < 2 ^ 16 }
    ensures { dst.new ≡ map (λ x. light_of_code 16 (FACTOR * x)) (two_by_two src.now) }
{
    for k in 0..src.len() / 2 {
        dst[k] = light_of(FACTOR * sample(src, true, k) as u32);
    }
}

// The 16-bit code of level 0.
const OFFSET: u32 = 24576;

// The light of a 16-bit code.
fn light_of(code: u32) -> i32
    requires { code < 2 ^ 16 }
    ensures { result ≡ light_of_code 16 code }
{
    with_sign(code < OFFSET, light_between(level_size(code)))
}

// How far a 16-bit code is from that of level 0.
fn level_size(code: u32) -> u32
    ensures { result ≡ level_size 16 code }
{
    code.abs_diff(OFFSET)
}

// How many 16-bit levels make one of 12 bits.
const PER_LEVEL: u32 = 16;

// The light of a 16-bit level without its sign: the entry of its 12-bit level, and its share of the rise to
// the next entry.
fn light_between(level: u32) -> u32
    requires { level < levels 16 }
    ensures { result ≡ light_between level }
{
    let lights = light_table();
    let k = (level / PER_LEVEL) as usize;
    let light = lights[k];
    let rise = lights[k + 1] - light;
    light + (rise * (level % PER_LEVEL) + PER_LEVEL / 2) / PER_LEVEL
}

fn with_sign(negative: bool, magnitude: u32) -> i32
    requires { magnitude < 2 ^ 31 }
    ensures { result ≡ signed negative magnitude }
{
    let value = magnitude as i32;
    if negative { -value } else { value }
}

// Light to codes: each number becomes two bytes. It refuses as Convert does, and a depth other than 10 and
// 12 is not offered. No number is at fault: codes are clipped.
pub fn light_to_code(depth: u32, src: &[i32], dst: &mut [u8]) -> Answer
    ensures answer { said result ≡ light_to_codes_says depth (length src.now) (length dst.old) }
    ensures bytes { dst.new ≡ leaves (light_to_codes_says depth (length src.now) (length dst.old)) (light_to_codes depth src.now) dst.old }
{
    light_to_codes(LevelSearch::try_from(depth)?, src, dst)
}

// The same by a search at a depth that is offered.
fn light_to_codes(search: LevelSearch, src: &[i32], dst: &mut [u8]) -> Answer
    ensures answer { said result ≡ light_to_codes_says (bits search.depth) (length src.now) (length dst.old) }
    ensures bytes { dst.new ≡ leaves (light_to_codes_says (bits search.depth) (length src.now) (length dst.old)) (light_to_codes (bits search.depth) src.now) dst.old }
{
    let pixels = count_pixels(false, true, src.len(), dst.len())?;
    write_codes(search, src, dst);
    Ok(pixels)
}

// The two bytes of each code. Each arm becomes a loop of its own, in which the compiler knows the depth's numbers.
fn write_codes(search: LevelSearch, src: &[i32], dst: &mut [u8])
    requires { length dst.old ≡ 2 * length src.now }
    ensures { dst.new ≡ light_to_codes (bits search.depth) src.now }
{
    match search.depth {
        Depth::Ten => write_each(search, src, dst),
        Depth::Twelve => write_each(search, src, dst),
        Depth::Sixteen => unreachable!(),
    }
}

// The same in one loop.
fn write_each(search: LevelSearch, src: &[i32], dst: &mut [u8])
    requires { length dst.old ≡ 2 * length src.now }
    ensures { dst.new ≡ light_to_codes (bits search.depth) src.now }
{
    for (k, light) in src.iter().enumerate() {
        let bytes = two_bytes(search.code_of(*light));
        dst[2 * k] = bytes[0];
        dst[2 * k + 1] = bytes[1];
    }
}

// ---- single samples

// The light of a code, or why it has none.
pub fn light_of_code(depth: u32, code: u16) -> Result<i32, Refusal>
    ensures { light_said result ≡ light_says depth code }
{
    light_at(Depth::try_from(depth)?, code)
}

// The same at a depth that is offered. The factor is the step of 16 bits, which is 128, over that of the
// depth.
fn light_at(depth: Depth, code: u16) -> Result<i32, Refusal>
    ensures { light_said result ≡ light_says (bits depth) code }
{
    if greatest_of(depth) < code {
        return Err(Refusal::SampleTooGreat);
    }
    Ok(light_of((128 / step_of(depth) * code) as u32))
}

// The code of a light, or why it has none.
pub fn code_of_light(depth: u32, light: i32) -> Result<u16, Refusal>
    ensures { code_said result ≡ code_says depth light }
{
    let search = LevelSearch::try_from(depth)?;
    Ok(search.code_of(light))
}

// The 12-bit codes of three lights, as a pixel.
pub fn pixel_of_light(red: i32, green: i32, blue: i32) -> Pixel
    ensures { result ≡ pixel_of_light red green blue }
{
    let search = LevelSearch::try_from(12).unwrap();
    Pixel {
        first: search.code_of(red),
        second: search.code_of(green),
        third: search.code_of(blue),
    }
}
