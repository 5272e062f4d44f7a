// The C interface: every operation of the library under a C name, over numbers and slices, for
// include/kiosk.h. It promises that C gets exactly what the operation says, as a count or minus the
// refusal's number, and exactly its bytes and counts; it asks nothing of a caller that C's types do not say.
// C has no Result and no enum with fields: so an answer is one number, with its place behind a pointer, and each kind of
// conversion and tint has a name of its own.
#![tactic(auto)]

ghost use Rattle.std.specs.Prelude.{◌≡◌, ◌≤◌, length, get_or, take};
ghost use Rattle.refusal.specs.Refusals.{number_of};
ghost use Rattle.refusal.specs.Answers.{said, fault_said, leaves};
ghost use Rattle.linear.specs.Operations.{codes_to_light_says, codes_to_light, light_to_codes_says, light_to_codes};
ghost use Rattle.linear.specs.Moved.{through_says, moved_light, moved_codes};
ghost use Rattle.tint.specs.Tints.{channels, tint_pixel};
ghost use Rattle.stickers.specs.Choices.{choice_of};
ghost use Rattle.stickers.specs.Stickers.{request_says, picture_of, stickers};
ghost use Rattle.printer.specs.Arrivals.{arrivals, simulation_says};
ghost use Rattle.printer.specs.Turns.{turn_bytes};
ghost use Rattle.spool.specs.Open.{open_says};
ghost use Rattle.spool.specs.Find.{find_said, find_says};
ghost use Rattle.frames.specs.Walk.{next_number};
ghost use Rattle.records.specs.declared.Layout.TheVariants.{Plain, Strided};
ghost use Rattle.records.specs.Layout.{record_bytes};
ghost use Rattle.picture.specs.Convert.{converted_said, clips_of};
ghost use Rattle.layout.specs.LayOut.{layout_says, layout_bytes};
ghost use Rattle.relayout.specs.Relayout.{relayout_says, relaid};
ghost use Rattle.listing.specs.Text.{put_text};
ghost use Rattle.listing.specs.Listing.{listing};
ghost use Rattle.kiosk.specs.Interface.{minus, answer_of, place_of, Gives, Converts, ConvertsAt, clips_after, Countable, Tints, samples_of_one, four_of, sums_of, open_answer, open_shop, open_table, find_answer, record_of, find_record, row_answer, row_start};

use frames::step_from;
use layout::lay_out;
use linear::moved::through_light;
use linear::{code_to_light, light_to_code};
use listing::{LISTING_ROOM, write_whole_listing};
use picture::{Conversion, Converted, convert};
use printer::simulate;
use records::{
    FrameRecord, RECORD_SIZE, STRIDED_RECORD_SIZE, StridedRecord, no_record, record_bytes,
    span_bytes, strided_bytes,
};
use refusal::{Answer, Fault, Refusal, number};
use relayout::relayout;
use roundtrip::{both_runs, round_trip};
use spool::{Found, find, open, row_extent};
use stickers::{TINT_CODES, choose};
use tint::{Channels, Tint, to_pixel};

// A refusal, as C gets it.
fn refused(refusal: Refusal) -> i64
    ensures { result ≡ minus (number_of refusal) }
{
    -i64::from(number(refusal))
}

// A fault, as C gets it: the place is written where the fault has one.
fn faulted(fault: Fault, place: &mut usize) -> i64
    ensures value { result ≡ answer_of (fault_said fault) }
    ensures at { place.new ≡ place_of (fault_said fault) place.old }
{
    if let Some(at) = fault.place {
        *place = at;
    }
    refused(fault.refusal)
}

// An answer, as C gets it.
fn answered(answer: Answer, place: &mut usize) -> i64
    requires { Countable (said answer) }
    ensures value { result ≡ answer_of (said answer) }
    ensures at { place.new ≡ place_of (said answer) place.old }
{
    match answer {
        Ok(count) => count as i64,
        Err(fault) => faulted(fault, place),
    }
}

// ---- Convert

// Of what Convert gives, the answer alone.
fn pixels_of(given: Result<Converted, Fault>) -> Answer
    ensures { said result ≡ converted_said given }
{
    given.map(|converted| converted.pixels)
}

// Of what Convert gives, the clipped pixels: what C's variable held stays there if it is refused.
fn counted(given: Result<Converted, Fault>, held: usize) -> usize
    ensures { result ≡ leaves (converted_said given) (clips_of given) held }
{
    given.map_or(held, |converted| converted.clipped)
}

fn converted(conversion: Conversion, src: &[u8], dst: &mut [u8], place: &mut usize) -> i64
    ensures { Converts conversion src.now result dst.old dst.new place.old place.new }
{
    answered(pixels_of(convert(conversion, src, dst)), place)
}

// 8-bit sRGB to e-sRGB.
pub fn kiosk_from_srgb(depth: u32, src: &[u8], dst: &mut [u8], place: &mut usize) -> i64
    ensures { Converts (Conversion.FromSrgb depth) src.now result dst.old dst.new place.old place.new }
{
    converted(Conversion::FromSrgb { depth }, src, dst, place)
}

// E-sRGB to 8-bit sRGB, and how many pixels have a colour that sRGB cannot hold.
pub fn kiosk_to_srgb(
    depth: u32,
    src: &[u8],
    dst: &mut [u8],
    place: &mut usize,
    clipped: &mut usize,
) -> i64
    ensures gives { Converts (Conversion.ToSrgb depth) src.now result dst.old dst.new place.old place.new }
    ensures clips { clipped.new ≡ clips_after depth src.now (length dst.old) clipped.old }
{
    let given = convert(Conversion::ToSrgb { depth }, src, dst);
    *clipped = counted(given, *clipped);
    answered(pixels_of(given), place)
}

// E-sRGB of one depth to another.
pub fn kiosk_change_depth(from: u32, to: u32, src: &[u8], dst: &mut [u8], place: &mut usize) -> i64
    ensures { Converts (Conversion.ChangeDepth from to) src.now result dst.old dst.new place.old place.new }
{
    converted(Conversion::ChangeDepth { from, to }, src, dst, place)
}

// E-sRGB to luma and chroma.
pub fn kiosk_to_luma_chroma(depth: u32, src: &[u8], dst: &mut [u8], place: &mut usize) -> i64
    ensures { Converts (Conversion.ToLumaChroma depth) src.now result dst.old dst.new place.old place.new }
{
    converted(Conversion::ToLumaChroma { depth }, src, dst, place)
}

// Luma and chroma back to e-sRGB.
pub fn kiosk_from_luma_chroma(depth: u32, src: &[u8], dst: &mut [u8], place: &mut usize) -> i64
    ensures { Converts (Conversion.FromLumaChroma depth) src.now result dst.old dst.new place.old place.new }
{
    converted(Conversion::FromLumaChroma { depth }, src, dst, place)
}

// E-sRGB to e-sYCC.
pub fn kiosk_to_esycc(depth: u32, src: &[u8], dst: &mut [u8], place: &mut usize) -> i64
    ensures { Converts (Conversion.ToEsycc depth) src.now result dst.old dst.new place.old place.new }
{
    converted(Conversion::ToEsycc { depth }, src, dst, place)
}

// e-sYCC to e-sRGB.
pub fn kiosk_from_esycc(depth: u32, src: &[u8], dst: &mut [u8], place: &mut usize) -> i64
    ensures { Converts (Conversion.FromEsycc depth) src.now result dst.old dst.new place.old place.new }
{
    converted(Conversion::FromEsycc { depth }, src, dst, place)
}

// E-sRGB to sYCC.
pub fn kiosk_to_sycc(depth: u32, src: &[u8], dst: &mut [u8], place: &mut usize) -> i64
    ensures { Converts (Conversion.ToSycc depth) src.now result dst.old dst.new place.old place.new }
{
    converted(Conversion::ToSycc { depth }, src, dst, place)
}

// sYCC to e-sRGB.
pub fn kiosk_from_sycc(depth: u32, src: &[u8], dst: &mut [u8], place: &mut usize) -> i64
    ensures { Converts (Conversion.FromSycc depth) src.now result dst.old dst.new place.old place.new }
{
    converted(Conversion::FromSycc { depth }, src, dst, place)
}

// ---- linear light

// E-sRGB codes to linear light.
pub fn kiosk_code_to_light(depth: u32, src: &[u8], dst: &mut [i32], place: &mut usize) -> i64
    ensures { Gives (codes_to_light_says depth src.now (length dst.old)) (codes_to_light depth src.now) result dst.old dst.new place.old place.new }
{
    answered(code_to_light(depth, src, dst), place)
}

// Linear light to e-sRGB codes. No refusal of it has a place.
pub fn kiosk_light_to_code(depth: u32, src: &[i32], dst: &mut [u8]) -> i64
    ensures value { result ≡ answer_of (light_to_codes_says depth (length src.now) (length dst.old)) }
    ensures bytes { dst.new ≡ leaves (light_to_codes_says depth (length src.now) (length dst.old)) (light_to_codes depth src.now) dst.old }
{
    let mut place = 0;
    answered(light_to_code(depth, src, dst), &mut place)
}

// E-sRGB codes to linear light, a move added to each number of it, and back to codes.
pub fn kiosk_through_light(
    depth: u32,
    codes: &[u8],
    moves: &[i32],
    light: &mut [i32],
    back: &mut [u8],
    place: &mut usize,
) -> i64
    ensures gives { Gives (through_says depth codes.now (length moves.now) (length light.old) (length back.old)) (moved_codes depth codes.now moves.now) result back.old back.new place.old place.new }
    ensures numbers { light.new ≡ leaves (through_says depth codes.now (length moves.now) (length light.old) (length back.old)) (moved_light depth codes.now moves.now) light.old }
{
    answered(through_light(depth, codes, moves, light, back), place)
}

// ---- tints

fn tinted(tint: Tint, pixel: &mut [u16; 3], place: &mut usize) -> i64
    ensures { Tints tint result pixel.old pixel.new place.old place.new }
{
    match to_pixel(tint) {
        Ok(codes) => {
            *pixel = [codes.first, codes.second, codes.third];
            1
        }
        Err(of_channel) => faulted(of_channel, place),
    }
}

// A tint of 8-bit values. It is never refused.
pub fn kiosk_tint_code(red: u8, green: u8, blue: u8, pixel: &mut [u16; 3])
    ensures { pixel.new ≡ samples_of_one (tint_pixel (Tint.Code red green blue)) }
{
    let mut place = 0;
    let _pixels = tinted(Tint::Code(red, green, blue), pixel, &mut place);
}

// A tint of nonlinear numbers.
pub fn kiosk_tint_nonlinear(
    red: f64,
    green: f64,
    blue: f64,
    pixel: &mut [u16; 3],
    place: &mut usize,
) -> i64
    ensures { Tints (Tint.Nonlinear (channels red green blue)) result pixel.old pixel.new place.old place.new }
{
    tinted(Tint::Nonlinear(Channels { red, green, blue }), pixel, place)
}

// A tint of light.
pub fn kiosk_tint_light(
    red: f64,
    green: f64,
    blue: f64,
    pixel: &mut [u16; 3],
    place: &mut usize,
) -> i64
    ensures { Tints (Tint.Light (channels red green blue)) result pixel.old pixel.new place.old place.new }
{
    tinted(Tint::Light(Channels { red, green, blue }), pixel, place)
}

// ---- stickers

// Four tints out of 16 for a picture: how many choices were looked at. Where that is accepted, `four` gets their
// numbers, and `sums` the sum with them and that with all tints.
pub fn kiosk_stickers(
    src: &[u8],
    tints: &[u16; TINT_CODES],
    budget: usize,
    dst: &mut [u8],
    four: &mut [u8; 4],
    sums: &mut [u32; 2],
    place: &mut usize,
) -> i64
    ensures gives { Gives (request_says src.now tints.now budget (length dst.old)) (stickers src.now tints.now budget) result dst.old dst.new place.old place.new }
    ensures four { four.new ≡ leaves (request_says src.now tints.now budget (length dst.old)) (four_of (choice_of tints.now (picture_of src.now) budget)) four.old }
    ensures sums { sums.new ≡ leaves (request_says src.now tints.now budget (length dst.old)) (sums_of (choice_of tints.now (picture_of src.now) budget)) sums.old }
{
    match choose(src, tints, budget, dst) {
        Ok(choice) => {
            let chosen = choice.four;
            *four = [chosen.first, chosen.second, chosen.third, chosen.fourth];
            *sums = [choice.sum, choice.least];
            choice.looked as i64
        }
        Err(of_request) => faulted(of_request, place),
    }
}

// ---- a shared printer

// As many turns as there are bytes, each with the kiosk that is served: how many.
pub fn kiosk_printer(numbers: &[u32], bytes: &mut [u8], place: &mut usize) -> i64
    ensures { Gives (simulation_says numbers.now (length bytes.old)) (turn_bytes (arrivals numbers.now) (length bytes.old)) result bytes.old bytes.new place.old place.new }
{
    answered(simulate(numbers, bytes), place)
}

// ---- the round trip

// E-sRGB to luma and chroma, and those back in a third buffer: two calls of Convert, the first of
// which gives what is returned.
pub fn kiosk_round_trip(
    depth: u32,
    codes: &[u8],
    ycc: &mut [u8],
    back: &mut [u8],
    place: &mut usize,
    again: &mut i64,
    again_place: &mut usize,
) -> i64
    ensures there { Converts (Conversion.ToLumaChroma depth) codes.now result ycc.old ycc.new place.old place.new }
    ensures again { Converts (Conversion.FromLumaChroma depth) ycc.new again.new back.old back.new again_place.old again_place.new }
{
    let trip = round_trip(depth, codes, ycc, back);
    *again = answered(trip.again, again_place);
    answered(trip.there, place)
}

// Both runs of an sRGB picture (rule 5.2), five calls of Convert: to codes, those to luma and chroma and
// back, then both pictures of codes to 8 bits. `answers` and `places` are filled in the order of the calls, and
// `clipped` in that of the last two; C lends them side by side.
pub fn kiosk_both_runs(
    depth: u32,
    picture: &[u8],
    codes: &mut [u8],
    ycc: &mut [u8],
    back: &mut [u8],
    direct: &mut [u8],
    round: &mut [u8],
    answers: &mut [i64; 5],
    places: &mut [usize; 5],
    clipped: &mut [usize; 2],
)
    ensures made { ConvertsAt 0 (Conversion.FromSrgb depth) picture.now codes.old codes.new answers.new places.old places.new }
    ensures there { ConvertsAt 1 (Conversion.ToLumaChroma depth) codes.new ycc.old ycc.new answers.new places.old places.new }
    ensures again { ConvertsAt 2 (Conversion.FromLumaChroma depth) ycc.new back.old back.new answers.new places.old places.new }
    ensures direct { ConvertsAt 3 (Conversion.ToSrgb depth) codes.new direct.old direct.new answers.new places.old places.new }
    ensures round { ConvertsAt 4 (Conversion.ToSrgb depth) back.new round.old round.new answers.new places.old places.new }
    ensures direct_clips { get_or clipped.new 0 0 ≡ clips_after depth codes.new (length direct.old) (get_or clipped.old 0 0) }
    ensures round_clips { get_or clipped.new 1 0 ≡ clips_after depth back.new (length round.old) (get_or clipped.old 1 0) }
{
    let runs = both_runs(depth, picture, codes, ycc, back, direct, round);
    clipped[0] = counted(runs.direct, clipped[0]);
    clipped[1] = counted(runs.round, clipped[1]);
    answers[0] = answered(runs.made, &mut places[0]);
    answers[1] = answered(runs.there, &mut places[1]);
    answers[2] = answered(runs.again, &mut places[2]);
    answers[3] = answered(pixels_of(runs.direct), &mut places[3]);
    answers[4] = answered(pixels_of(runs.round), &mut places[4]);
}

// ---- the spool

// Opens a spool: its frame count; shop and table offset through the pointers.
pub fn kiosk_open(file: &[u8], shop: &mut u16, table: &mut u32) -> i64
    ensures value { result ≡ open_answer (open_says file.now) }
    ensures shop { shop.new ≡ open_shop (open_says file.now) shop.old }
    ensures table { table.new ≡ open_table (open_says file.now) table.old }
{
    match open(file) {
        Ok(contents) => {
            *shop = contents.shop;
            *table = contents.table;
            contents.count as i64
        }
        Err(refusal) => refused(refusal),
    }
}

// What is found, as C gets it: the record, and the length of the frame's pixels.
fn record_of(found: Found) -> StridedRecord
    ensures { result ≡ record_of (find_said found) }
{
    found.unwrap_or(no_record())
}

fn length_of(found: Found) -> i64
    ensures { result ≡ find_answer (find_said found) }
{
    match found {
        Ok(strided) => span_bytes(strided) as i64,
        Err(refusal) => refused(refusal),
    }
}

// Both, with the record as the bytes that it has in one of the layouts: an array, whose length is B's, since the bound of
// a function cannot name a const parameter.
fn recorded<B: Copy, F: FnOnce(StridedRecord) -> B>(found: Found, bytes: F, frame: &mut B) -> i64
    requires { F.pre bytes (record_of (find_said found)) }
    ensures value { result ≡ find_answer (find_said found) }
    ensures frame { F.post bytes (record_of (find_said found)) frame.new }
{
    *frame = bytes(record_of(found));
    length_of(found)
}

// The bytes of a plain record, which has no stride.
fn plain_bytes(strided: StridedRecord) -> [u8; RECORD_SIZE]
    ensures { result ≡ record_bytes Plain strided }
{
    record_bytes(strided.frame)
}

// Finds a frame: the length of its pixels, which start at the record's offset. The record is a plain one.
pub fn kiosk_find(file: &[u8], number: usize, frame: &mut [u8; RECORD_SIZE]) -> i64
    ensures value { result ≡ find_answer (find_says file.now number) }
    ensures frame { frame.new ≡ find_record Plain (find_says file.now number) }
{
    recorded(find(file, number), plain_bytes, frame)
}

// The same, with the frame's stride in the record.
pub fn kiosk_find_strided(file: &[u8], number: usize, frame: &mut [u8; STRIDED_RECORD_SIZE]) -> i64
    ensures value { result ≡ find_answer (find_says file.now number) }
    ensures frame { frame.new ≡ find_record Strided (find_says file.now number) }
{
    recorded(find(file, number), strided_bytes, frame)
}

// What is found at a number, which moves on.
fn stepped(file: &[u8], next: &mut usize) -> Found
    ensures found { find_said result ≡ find_says file.now next.old }
    ensures next { next.new ≡ next_number file.now next.old }
{
    let visit = step_from(file, *next);
    *next = visit.next;
    visit.found
}

// One step of the walk over a spool's frames: finds frame `next`, and moves `next` on. The record is a
// plain one.
pub fn kiosk_step(file: &[u8], next: &mut usize, frame: &mut [u8; RECORD_SIZE]) -> i64
    ensures value { result ≡ find_answer (find_says file.now next.old) }
    ensures frame { frame.new ≡ find_record Plain (find_says file.now next.old) }
    ensures next { next.new ≡ next_number file.now next.old }
{
    recorded(stepped(file, next), plain_bytes, frame)
}

// The same, with the frame's stride in the record.
pub fn kiosk_step_strided(
    file: &[u8],
    next: &mut usize,
    frame: &mut [u8; STRIDED_RECORD_SIZE],
) -> i64
    ensures value { result ≡ find_answer (find_says file.now next.old) }
    ensures frame { frame.new ≡ find_record Strided (find_says file.now next.old) }
    ensures next { next.new ≡ next_number file.now next.old }
{
    recorded(stepped(file, next), strided_bytes, frame)
}

// A row of a frame: its length, and where it starts in the file.
pub fn kiosk_row(file: &[u8], number: usize, row: usize, start: &mut usize) -> i64
    ensures value { result ≡ row_answer (find_says file.now number) row }
    ensures start { start.new ≡ row_start (find_says file.now number) row start.old }
{
    match find(file, number) {
        Ok(strided) => {
            let extent = row_extent(strided, row);
            *start = extent.start;
            extent.length as i64
        }
        Err(refusal) => refused(refusal),
    }
}

// Carries a spool to the other layout.
pub fn kiosk_relayout(file: &[u8], dst: &mut [u8], place: &mut usize) -> i64
    ensures { Gives (relayout_says file.now (length dst.old)) (relaid file.now) result dst.old dst.new place.old place.new }
{
    answered(relayout(file, dst), place)
}

// Lays out a spool of records. Their offsets are not looked at.
pub fn kiosk_lay_out(records: &[FrameRecord], shop: u16, dst: &mut [u8], place: &mut usize) -> i64
    ensures { Gives (layout_says records.now (length dst.old)) (layout_bytes records.now shop dst.old) result dst.old dst.new place.old place.new }
{
    answered(lay_out(records, shop, dst), place)
}

// The listing of a spool as text (rules, section 9): its length, from the buffer's start on.
pub fn kiosk_listing(file: &[u8], text: &mut [u8; LISTING_ROOM]) -> usize
    ensures whole { take result text.new ≡ listing file.now }
    ensures within { result ≤ length text.new }
    ensures buffer { record { bytes = text.new; at = result } ≡ put_text (record { bytes = text.old; at = 0 }) (listing file.now) }
{
    write_whole_listing(file, text)
}
