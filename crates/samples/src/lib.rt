// Samples in pixel buffers: one or two bytes each, three to a pixel; and what an operation says of a
// source and of the room for its result. It promises the refusals and places of rules 4.2 and 4.3, for
// any buffer and any limit, and asks nothing of a caller.
#![tactic(auto)]

ghost use Rattle.std.specs.Prelude.{◌≡◌, true, false, ◌/◌, ◌*◌, ◌+◌, ◌<◌, eqb, length, get_or};
ghost use Rattle.refusal.specs.Answers.{verdict, said, accepted, refuses_or};
ghost use Rattle.samples.specs.Samples.{sample_count, sample_size, pixel_size, two_by_two, samples_of, no_pixel, read};
ghost use Rattle.samples.specs.Faults.{fault, samples_say, length_fault, in_order, source_says};
ghost use Rattle.samples.specs.HowJudged.{least_of, all_within, at_fault, SoundTo};

use numbers::{excess, from_two};
use refusal::{Answer, Refusal};

// ---- sizes
// Each has two numbers, one for samples of two bytes; a function that took them would say no more.

// The bytes of a sample.
fn sample_size(wide: bool) -> usize
    ensures { result ≡ sample_size wide }
{
    if wide { 2 } else { 1 }
}

// The bytes of a pixel.
pub fn pixel_size(wide: bool) -> usize
    ensures { result ≡ pixel_size wide }
{
    if wide { 6 } else { 3 }
}

// How many whole samples some bytes hold.
pub fn sample_count(wide: bool, bytes: usize) -> usize
    ensures { result ≡ sample_count wide bytes }
{
    if wide { bytes / 2 } else { bytes }
}

// ---- reading
// A number behind the last has a value, as `get_or` promises it, and no None, so that no loop has a test. Bytes and their
// width are two parameters: a struct would be made for one call, and is no plainer.

// Sample k of a buffer of two-byte samples.
fn wide_sample(src: &[u8], k: usize) -> u16
    requires { 2 * k + 1 < length src.now }
    ensures { result ≡ get_or (two_by_two src.now) k 0 }
{
    from_two([src[2 * k], src[2 * k + 1]])
}

// Sample k of those that a buffer holds.
fn held_sample(src: &[u8], wide: bool, k: usize) -> u16
    requires { k < sample_count wide (length src.now) }
    ensures { result ≡ get_or (samples_of wide src.now) k 0 }
{
    if wide {
        wide_sample(src, k)
    } else {
        src[k] as u16
    }
}

// Sample k, or 0 behind the last. In a loop that ends with the samples, the compiler leaves the test out.
pub fn sample(src: &[u8], wide: bool, k: usize) -> u16
    ensures { result ≡ get_or (samples_of wide src.now) k 0 }
{
    if sample_count(wide, src.len()) <= k {
        return 0;
    }
    held_sample(src, wide, k)
}

// A pixel: three samples, in the order of the buffer.
#[derive(Clone, Copy, Debug, PartialEq, Eq)]
pub struct Pixel {
    pub first: u16,
    pub second: u16,
    pub third: u16,
}

// Pixel i of a buffer, or zeros behind the last. In a loop that ends at the same quotient, the compiler leaves
// the test out.
pub fn pixel_at(src: &[u8], wide: bool, i: usize) -> Pixel
    ensures { result ≡ get_or (read wide src.now) i no_pixel }
{
    if src.len() / pixel_size(wide) <= i {
        return Pixel {
            first: 0,
            second: 0,
            third: 0,
        };
    }
    let k = 3 * i;
    Pixel {
        first: held_sample(src, wide, k),
        second: held_sample(src, wide, k + 1),
        third: held_sample(src, wide, k + 2),
    }
}

// ---- the first sample at fault

// What the samples of a source may be: any bytes, or codes, where a chroma of 0 may be at fault.
#[derive(Clone, Copy)]
pub enum Coding {
    Bytes,
    Codes { greatest: u16, chroma: bool },
}

// What makes a code faulty: to be above the greatest or, of luma and chroma, to be a chroma of 0.
#[derive(Clone, Copy)]
struct Limits {
    greatest: u16,
    chroma: bool,
}

impl Limits {
    // Sample x, the k-th of a buffer of codes.
    #[tactic(auto, using(std::proofs::lemmas::Bool::Decides::nat_tests), unfolding(crate::specs::Faults::fault))]
    fn look_at(self, k: usize, x: u16) -> Result<(), Refusal>
        ensures { verdict result ≡ fault (Coding.Codes self.greatest self.chroma) k x }
    {
        if self.greatest < x {
            return Err(Refusal::SampleTooGreat);
        }
        if x != 0 {
            return Ok(());
        }
        if k % 3 == 0 {
            return Ok(());
        }
        if self.chroma {
            Err(Refusal::ChromaZero)
        } else {
            Ok(())
        }
    }

    // Is one of a pixel's samples at fault? One answer for the three, with no branch between them.
    fn at_fault(self, p: Pixel) -> bool
        ensures { result ≡ at_fault self.chroma self.greatest p }
    {
        (self.greatest < p.first)
            | (self.greatest < p.second)
            | (self.greatest < p.third)
            | (self.chroma & ((p.second == 0) | (p.third == 0)))
    }

    // The number of the first sample of the first pixel at fault or, if there is none, of the sample behind
    // the last whole pixel. It is quick because a pixel takes one test.
    fn sound_start(self, src: &[u8]) -> usize
        ensures { SoundTo self.chroma self.greatest (two_by_two src.now) result }
    {
        let end = src.len() / 6;
        for i in 0..end {
            if self.at_fault(pixel_at(src, true, i)) {
                return 3 * i;
            }
        }
        3 * end
    }

    // The samples from number `start` on, up to the first at fault.
    fn first_fault(self, src: &[u8], count: usize, start: usize) -> Answer
        requires { SoundTo self.chroma self.greatest (two_by_two src.now) start }
        ensures { said result ≡ samples_say (Coding.Codes self.greatest self.chroma) (accepted count) 0 (two_by_two src.now) }
    {
        for k in start..src.len() / 2 {
            match self.look_at(k, wide_sample(src, k)) {
                Ok(()) => {}
                Err(refusal) => return Err(refusal.at(2 * k)),
            }
        }
        Ok(count)
    }

    // The quick look. Each call names the least sample, so that the compiler makes a loop of its own for it:
    // nothing is below 0.
    fn looks_sound(self, src: &[u8]) -> bool
        ensures { result ≡ all_within (least_of self.chroma) self.greatest (two_by_two src.now) }
    {
        if self.chroma {
            all_within(1, self.greatest, src)
        } else {
            all_within(0, self.greatest, src)
        }
    }
}

// Are all samples within bounds? The loop has no early exit, so that a compiler can look at several
// samples at once; what it gathers is 0 as long as no sample is below or above.
fn all_within(least: u16, greatest: u16, src: &[u8]) -> bool
    ensures { result ≡ all_within least greatest (two_by_two src.now) }
{
    let mut outside = 0;
    for k in 0..src.len() / 2 {
        let x = wide_sample(src, k);
        outside = outside | excess(least, x) | excess(x, greatest);
    }
    outside == 0
}

// The first fault in a buffer of codes, or the pixel count if there is none. Nearly every picture is
// sound, and then the quick look decides. Codes of 16 bits cannot be at fault and are not looked at.
pub fn judge(chroma: bool, greatest: u16, src: &[u8], pixels: usize) -> Answer
    ensures { said result ≡ samples_say (Coding.Codes greatest chroma) (accepted pixels) 0 (two_by_two src.now) }
{
    if greatest == 65535 {
        if !chroma {
            return Ok(pixels);
        }
    }
    let limits = Limits { greatest, chroma };
    if limits.looks_sound(src) {
        return Ok(pixels);
    }
    let start = limits.sound_start(src);
    limits.first_fault(src, pixels, start)
}

// ---- the order of refusals

// The pixel count of a source of `len` bytes or numbers, if it is whole samples and whole pixels.
pub fn whole_pixels(wide: bool, len: usize) -> Answer
    ensures { said result ≡ refuses_or (length_fault wide len) (accepted (len / pixel_size wide)) }
{
    let sample_in = sample_size(wide);
    let pixel_in = pixel_size(wide);
    if len % sample_in != 0 {
        return Err(Refusal::NotWholeSamples.into());
    }
    if len % pixel_in != 0 {
        return Err(Refusal::NotWholePixels.into());
    }
    Ok(len / pixel_in)
}

// Is the room what so many pixels of the result need? Quotients are compared, since a product could overflow.
fn fits(wide: bool, pixels: usize, room: usize) -> bool
    ensures { result ≡ eqb room (pixel_size wide * pixels) }
{
    let pixel_out = pixel_size(wide);
    if room % pixel_out != 0 {
        return false;
    }
    room / pixel_out == pixels
}

// The same if the room for the result is also what the pixels need. Samples are wide or not, in the source and
// in the result.
pub fn count_pixels(wide_in: bool, wide_out: bool, len: usize, room: usize) -> Answer
    ensures { said result ≡ in_order true wide_in wide_out len room (accepted (len / pixel_size wide_in)) }
{
    let pixels = whole_pixels(wide_in, len)?;
    if !fits(wide_out, pixels, room) {
        return Err(Refusal::WrongDestinationLength.into());
    }
    Ok(pixels)
}

// What is said of a source in bytes, for a result whose samples are wide or not, in so much room: all
// refusals but that of a depth.
pub fn examine(coding: Coding, wide_out: bool, src: &[u8], room: usize) -> Answer
    ensures { said result ≡ source_says true coding wide_out src.now room }
{
    match coding {
        Coding::Bytes => count_pixels(false, wide_out, src.len(), room),
        Coding::Codes { greatest, chroma } => {
            let pixels = count_pixels(true, wide_out, src.len(), room)?;
            judge(chroma, greatest, src, pixels)
        }
    }
}
