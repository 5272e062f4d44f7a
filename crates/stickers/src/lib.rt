// Four of 16 tints for stickers (rules, section 13): which four are nearest to a picture of 12-bit e-sRGB, and
// which of them each pixel takes, the darkest of those nearest to it. For every picture, tints, budget and
// destination it promises the answer and every byte, and that no other choice that was looked at has a smaller
// sum; it asks nothing of a caller.
#![tactic(auto)]

ghost use Rattle.std.specs.Prelude.{MatchOption, ◌≡◌, cond, map, ℕ, ◌+◌, ◌*◌, ◌^◌, ◌≤◌, ◌<◌, min, ltb, length, get_or, drop};
ghost use Rattle.refusal.specs.Answers.{Said, said, refused_at, leaves};
ghost use Rattle.samples.specs.Samples.{two_by_two, no_pixel};
ghost use Rattle.stickers.specs.Distances.{tint, apart, away, tint_luma, summed};
ghost use Rattle.stickers.specs.Choices.{tint_count, tint_codes, four, choices, tint_of, sum_of, least_of_all, sum_of_all, choice_of};
ghost use Rattle.stickers.specs.Stickers.{picture_says, tints_say, most_pixels, work_says, request_says, picture_of, chosen_said, stickers_says, stickers};
ghost use Rattle.stickers.specs.Promise.{Ascending, Promised};
ghost use Rattle.stickers.specs.HowSummed.{AllCodes, TintCodes, CodePixel, after, block_size, entry_count, most_entry, row_of, Column, BlockOf, row_sum, four_sum, Added, SumsOf, BestOf};
ghost use Rattle.stickers.specs.HowTaken.{tie_rank, rank, TieRanks};

use esrgb::Depth;
use lumachroma::to_luma_chroma;
use refusal::{Answer, Fault, Refusal};
use samples::{Pixel, judge, pixel_at, whole_pixels};
use std::array;
use std::cmp::min_by_key;

// Four tints by number, ascending.
#[derive(Clone, Copy)]
pub struct Four {
    pub first: u8,
    pub second: u8,
    pub third: u8,
    pub fourth: u8,
}

// What an accepted picture gets: the four chosen and their sum, how many choices were looked at, and the sum with
// all tints.
#[derive(Clone, Copy)]
pub struct Choice {
    pub four: Four,
    pub sum: u32,
    pub looked: usize,
    pub least: u32,
}

const TINTS: usize = 16;

// The codes of the tints, three to a tint.
pub const TINT_CODES: usize = 48;

// Chooses four tints for a picture, and writes the number of each pixel's tint.
#[tactic(auto, using(crate::proofs::Answers::refused_choice))]
pub fn choose(
    src: &[u8],
    tints: &[u16; TINT_CODES],
    budget: usize,
    dst: &mut [u8],
) -> Result<Choice, Fault>
    ensures answer { chosen_said result ≡ stickers_says src.now tints.now budget (length dst.old) }
    ensures bytes { dst.new ≡ leaves (request_says src.now tints.now budget (length dst.old)) (stickers src.now tints.now budget) dst.old }
    ensures promise { (choice : Choice) → result ≡ Ok choice → Promised tints.now (picture_of src.now) budget choice }
{
    let limit = judge_request(src, tints, budget, dst.len())?;
    let request = Request { src, tints };
    let choice = search(request, limit);
    Palette::of(request, choice.four).write_tints(dst);
    Ok(choice)
}

// ---- what is refused

const GREATEST_CODE: u16 = 4095;

const MOST_PIXELS: usize = 65536;

// How many choices of four tints there are.
const CHOICES: usize = 1820;

// All refusals, in order; or how many choices the budget allows.
#[tactic(auto, using(crate::proofs::Requests::picture_ends))]
fn judge_request(src: &[u8], tints: &[u16; TINT_CODES], budget: usize, room: usize) -> Answer
    ensures { said result ≡ request_says src.now tints.now budget room }
{
    let pixels = judge_picture(src, room)?;
    judge_work(src, tints, budget, pixels)
}

// The picture, and the room for a byte to each pixel.
fn judge_picture(src: &[u8], room: usize) -> Answer
    ensures { said result ≡ picture_says src.now room }
{
    let pixels = whole_pixels(true, src.len())?;
    if room != pixels {
        return Err(Refusal::WrongDestinationLength.into());
    }
    judge(false, GREATEST_CODE, src, pixels)
}

// The tints, the budget and the number of pixels.
fn judge_work(src: &[u8], tints: &[u16; TINT_CODES], budget: usize, pixels: usize) -> Answer
    ensures { said result ≡ work_says (length src.now) tints.now budget pixels }
{
    if let Some(k) = first_above(tints) {
        return Err(Refusal::SampleTooGreat.at(src.len() + k));
    }
    if budget == 0 {
        return Err(Refusal::NoBudget.into());
    }
    if MOST_PIXELS < pixels {
        return Err(Refusal::TooManyPixels.into());
    }
    Ok(budget.min(CHOICES))
}

// The number of the first code of the tints above the greatest.
fn first_above(tints: &[u16; TINT_CODES]) -> Option<usize>
    ensures { MatchOption result ((done : Said) (len : ℕ) → tints_say done len tints.now ≡ done) (λ k. (k < tint_codes) × ((done : Said) (len : ℕ) → tints_say done len tints.now ≡ refused_at 12 (len + k))) }
{
    tints.iter().position(|code| GREATEST_CODE < *code)
}

// ---- what was accepted

// A pixel of codes of 12 bits.
#[derive(Clone, Copy)]
struct Colour {
    pixel: Pixel,
    ghost codes: { CodePixel pixel },
}

// An accepted request: no code of the picture or of the tints is too great, and there are no more pixels than the
// sticker printer takes.
#[derive(Clone, Copy)]
struct Request<'a> {
    src: &'a [u8],
    tints: &'a [u16; TINT_CODES],
    ghost codes: { AllCodes (two_by_two src.now) },
    ghost few: { length (picture_of src.now) ≤ most_pixels },
    ghost small: { TintCodes tints.now },
}

// A tint goes by its index, so each method with one asks that it is below the number of tints; a type for such an
// index would be made anew at each use.
impl Request<'_> {
    fn pixel_count(self) -> usize
        ensures { result ≡ length (picture_of self.entry.src.now) }
    {
        self.src.len() / 6
    }

    // Pixel i.
    fn colour_at(self, i: usize) -> Colour
        ensures { result.pixel ≡ get_or (picture_of self.entry.src.now) i no_pixel }
    {
        Colour {
            pixel: pixel_at(self.src, true, i),
        }
    }

    // Tint t as a pixel.
    fn tint_at(self, t: usize) -> Pixel
        requires { t < tint_count }
        ensures { result ≡ tint self.entry.tints.now t }
    {
        Pixel {
            first: self.tints[3 * t],
            second: self.tints[3 * t + 1],
            third: self.tints[3 * t + 2],
        }
    }

    // The distance of a pixel to tint t.
    fn distance_to(self, colour: Colour, t: usize) -> u16
        requires { t < tint_count }
        ensures { result ≡ away self.entry.tints.now colour.pixel t }
    {
        let pixel = colour.pixel;
        let tint = self.tint_at(t);
        pixel.first.abs_diff(tint.first)
            + pixel.second.abs_diff(tint.second)
            + pixel.third.abs_diff(tint.third)
    }

    // The luma of tint t, rounded as in a picture.
    fn tint_luma(self, t: usize) -> u16
        requires { t < tint_count }
        ensures { result ≡ tint_luma self.entry.tints.now t }
    {
        let converted = to_luma_chroma(Depth::Twelve, self.tint_at(t));
        converted.first
    }

    // What decides between tints that are as near, of tint t.
    fn tie_rank(self, t: usize) -> u16
        requires { t < tint_count }
        ensures { result ≡ tie_rank self.entry.tints.now t }
    {
        RANKS * self.tint_luma(t) + t as u16
    }
}

// ---- the sums, block by block
//
// The sums of all choices are made for a block of pixels at a time. In a block each tint has a row of distances,
// so that a choice's sum is a loop over four rows, which a compiler makes of vector instructions.
//
// A sum is given with its bound, which the next addition needs; a type of the two would be taken apart at once.

// The pixels of a block.
const BLOCK: usize = 256;

// The entries of a block: a row for each tint.
const ENTRIES: usize = 4096;

// Where the row of a tint starts.
fn row_of(t: u8) -> usize
    ensures { result ≡ row_of t }
{
    BLOCK * usize::from(t)
}

// Puts a pixel's distances in column k of the rows. The result is the least of them.
fn fill_column(request: Request, colour: Colour, k: usize, rows: &mut [u16; ENTRIES]) -> u16
    requires { k < block_size }
    ensures least { result ≡ least_of_all request.entry.tints.now colour.pixel }
    ensures column { Column request.entry.tints.now colour.pixel k rows.old rows.new }
{
    let mut least = request.distance_to(colour, 0);
    for t in 0..TINTS {
        let distance = request.distance_to(colour, t);
        rows[BLOCK * t + k] = distance;
        least = least.min(distance);
    }
    least
}

// Fills the rows for `count` pixels from number `start` on. The result is the sum of their least distances.
fn fill_block(request: Request, start: usize, count: usize, rows: &mut [u16; ENTRIES]) -> u32
    requires { (count ≤ block_size) × (start + count ≤ length (picture_of request.src.now)) }
    ensures least { summed (least_of_all request.entry.tints.now) (drop start (picture_of request.entry.src.now)) ≡ result + summed (least_of_all request.entry.tints.now) (drop (start + count) (picture_of request.entry.src.now)) }
    ensures few { result ≤ most_entry * count }
    ensures block { BlockOf request.entry.tints.now (picture_of request.entry.src.now) start count rows.new }
    ensures whole { length rows.new ≡ entry_count }
{
    let mut sum: u32 = 0;
    for k in 0..count {
        let colour = request.colour_at(start + k);
        sum += u32::from(fill_column(request, colour, k, rows));
    }
    sum
}

// The rows of a block, and the number of its pixels.
#[derive(Clone, Copy)]
struct Block<'a> {
    rows: &'a [u16; ENTRIES],
    count: usize,
    ghost within: { count ≤ block_size },
}

impl Block<'_> {
    // The sum of the least of four rows, which start at a, b, c and d.
    fn row_sum(self, a: usize, b: usize, c: usize, d: usize) -> u32
        requires { (a + self.count ≤ entry_count) × (b + self.count ≤ entry_count) × (c + self.count ≤ entry_count) × (d + self.count ≤ entry_count) }
        ensures sum { result ≡ row_sum self.entry.rows.now a b c d self.entry.count }
        ensures few { result ≤ most_entry * self.entry.count }
    {
        let rows = self.rows;
        let mut sum: u32 = 0;
        for k in 0..self.count {
            let two = rows[a + k].min(rows[b + k]);
            let three = two.min(rows[c + k]);
            sum += u32::from(three.min(rows[d + k]));
        }
        sum
    }

    // The sum of a choice.
    fn four_sum(self, four: Four) -> u32
        requires { Ascending four }
        ensures sum { result ≡ four_sum self.entry.rows.now four self.entry.count }
        ensures few { result ≤ most_entry * self.entry.count }
    {
        self.row_sum(
            row_of(four.first),
            row_of(four.second),
            row_of(four.third),
            row_of(four.fourth),
        )
    }
}

// ---- the choices, one after another

fn four_of(first: u8, second: u8, third: u8, fourth: u8) -> Four
    ensures { result ≡ four first second third fourth }
{
    Four {
        first,
        second,
        third,
        fourth,
    }
}

const LAST_TINT: u8 = 15;

// The choice after one: the last number that can grow does, and those behind it follow closely. The last stays.
fn following(choice: Four) -> Four
    ensures { result ≡ after choice }
{
    let a = choice.first;
    let b = choice.second;
    let c = choice.third;
    let d = choice.fourth;
    if d < LAST_TINT {
        return four_of(a, b, c, d + 1);
    }
    if c < LAST_TINT - 1 {
        return four_of(a, b, c + 1, c + 2);
    }
    if b < LAST_TINT - 2 {
        return four_of(a, b + 1, b + 2, b + 3);
    }
    if a < LAST_TINT - 3 {
        return four_of(a + 1, a + 2, a + 3, a + 4);
    }
    choice
}

// ---- the choice

// A choice with its sum.
#[derive(Clone, Copy)]
struct Summed {
    four: Four,
    sum: u32,
}

// The sums of the first choices, as many as the limit. Memory is fixed, so there is room for all.
#[derive(Drop)]
struct Sums {
    all: [u32; CHOICES],
    limit: usize,
    ghost whole: { length all ≡ length choices },
    ghost some: { 0 < limit },
    ghost within: { limit ≤ length choices },
}

impl Sums {
    fn new(limit: usize) -> Sums
        requires { (0 < limit) × (limit ≤ length choices) }
        ensures none { (k : ℕ) → get_or result.all k 0 ≡ 0 }
        ensures limit { result.limit ≡ limit }
    {
        Sums {
            all: [0; CHOICES],
            limit,
        }
    }

    // Adds a block's sums.
    fn add_block(&mut self, block: Block)
        requires { (k : ℕ) → k < self.old.limit → get_or self.old.all k 0 + most_entry * block.count < 2 ^ 32 }
        ensures added { Added block.entry.rows.now block.entry.count self.old.limit self.old.all self.new.all }
        ensures limit { self.new.limit ≡ self.old.limit }
    {
        let mut four = four_of(0, 1, 2, 3);
        // By index, since a part of a field beside ghost fields is not lent.
        for k in 0..self.limit {
            self.all[k] += block.four_sum(four);
            four = following(four);
        }
    }

    // Adds the sums over a picture. The result is the sum with all tints.
    fn add_picture(&mut self, request: Request) -> u32
        requires { (k : ℕ) → get_or self.old.all k 0 ≡ 0 }
        ensures least { result ≡ sum_of_all request.entry.tints.now (picture_of request.entry.src.now) }
        ensures sums { SumsOf (sum_of request.entry.tints.now (picture_of request.entry.src.now)) self.old.limit self.new.all }
        ensures limit { self.new.limit ≡ self.old.limit }
    {
        let pixels = request.pixel_count();
        let mut rows = [0u16; ENTRIES];
        let mut least: u32 = 0;
        for start in (0..pixels).step_by(BLOCK) {
            let count = BLOCK.min(pixels - start);
            least += fill_block(request, start, count, &mut rows);
            self.add_block(Block { rows: &rows, count });
        }
        least
    }

    // The earliest choice with the smallest sum, whatever the sums are of.
    fn earliest(&self) -> Summed
        ensures { (sum : Four → ℕ) → SumsOf sum self.now.limit self.now.all → BestOf sum self.now.limit result }
    {
        let mut four = four_of(0, 1, 2, 3);
        let mut best = Summed {
            four,
            sum: self.all[0],
        };
        for sum in &self.all[1..self.limit] {
            four = following(four);
            let later = Summed { four, sum: *sum };
            best = min_by_key(best, later, |choice| choice.sum);
        }
        best
    }
}

// The choice for a picture, of the first choices up to the limit.
fn search(request: Request, limit: usize) -> Choice
    requires { (0 < limit) × (limit ≤ length choices) }
    ensures { result ≡ choice_of request.entry.tints.now (picture_of request.entry.src.now) limit }
{
    let mut sums = Sums::new(limit);
    let least = sums.add_picture(request);
    let best = sums.earliest();
    Choice {
        four: best.four,
        sum: best.sum,
        looked: limit,
        least,
    }
}

// ---- the tints of the pixels
//
// A pixel takes the tint with the least rank, which no two tints have in common: distance counts first, then luma,
// then the number. Ranks are compared without a branch, and the rank that is left tells the tint.

// The ranks of a luma: one for each tint.
const RANKS: u16 = 16;

// The ranks of a distance: those of all lumas of 12 bits.
const RANK_SPAN: u32 = 65536;

// The four tints that pixels take, and what decides ties between tints, worked out once for a picture.
#[derive(Drop)]
struct Palette<'a> {
    request: Request<'a>,
    four: Four,
    ties: [u16; TINTS],
    ghost ascending: { Ascending four },
    ghost ranked: { TieRanks request.tints.now ties },
}

impl Palette<'_> {
    fn of(request: Request, four: Four) -> Palette
        requires { Ascending four }
        ensures request { result.request ≡ request.entry }
        ensures four { result.four ≡ four }
    {
        let ties = array::from_fn(|t| request.tie_rank(t));
        Palette {
            request,
            four,
            ties,
        }
    }

    // The rank of tint t for a pixel.
    fn rank_of(&self, colour: Colour, t: u8) -> u32
        requires { t < tint_count }
        ensures { result ≡ rank self.now.request.tints.now colour.pixel t }
    {
        let t = usize::from(t);
        RANK_SPAN * u32::from(self.request.distance_to(colour, t)) + u32::from(self.ties[t])
    }

    // The tint that a pixel takes of the four.
    fn tint_of(&self, colour: Colour) -> u8
        ensures { result ≡ tint_of self.now.request.tints.now self.now.four colour.pixel }
    {
        let first = self.rank_of(colour, self.four.first);
        let two = first.min(self.rank_of(colour, self.four.second));
        let three = two.min(self.rank_of(colour, self.four.third));
        let four = three.min(self.rank_of(colour, self.four.fourth));
        (four % u32::from(RANKS)) as u8
    }

    // Writes the tint of each pixel.
    fn write_tints(&self, dst: &mut [u8])
        requires { length dst.old ≡ length (picture_of self.now.request.src.now) }
        ensures { dst.new ≡ map (tint_of self.now.request.tints.now self.now.four) (picture_of self.now.request.src.now) }
    {
        for (i, byte) in dst.iter_mut().enumerate() {
            *byte = self.tint_of(self.request.colour_at(i));
        }
    }
}
