// The exports for C: each function of `kiosk` under its own name, with its clauses, for include/kiosk.h. A crate is a
// library or a static library; this one is only the second.
#![tactic(auto)]

ghost use Rattle.std.specs.Prelude.{◌≡◌, ◌≤◌, length, get_or, take};
ghost use Rattle.refusal.specs.Refusals.{number_of};
ghost use Rattle.refusal.specs.Answers.{said, leaves};
ghost use Rattle.linear.specs.Operations.{codes_to_light_says, codes_to_light, light_to_codes_says, light_to_codes};
ghost use Rattle.linear.specs.Moved.{through_says, moved_light, moved_codes};
ghost use Rattle.tint.specs.Tints.{channels, tint_pixel};
ghost use Rattle.stickers.specs.Choices.{choice_of};
ghost use Rattle.stickers.specs.Stickers.{request_says, picture_of, stickers};
ghost use Rattle.printer.specs.Arrivals.{arrivals, simulation_says};
ghost use Rattle.printer.specs.Turns.{turn_bytes};
ghost use Rattle.spool.specs.Open.{open_says};
ghost use Rattle.spool.specs.Find.{find_said, find_says};
ghost use Rattle.frames.specs.Walk.{next_number};
ghost use Rattle.records.specs.declared.Layout.TheVariants.{Plain, Strided};
ghost use Rattle.layout.specs.LayOut.{layout_says, layout_bytes};
ghost use Rattle.relayout.specs.Relayout.{relayout_says, relaid};
ghost use Rattle.listing.specs.Text.{put_text};
ghost use Rattle.listing.specs.Listing.{listing};
ghost use Rattle.kiosk.specs.Interface.{minus, answer_of, place_of, Gives, Converts, ConvertsAt, clips_after, Countable, Tints, samples_of_one, four_of, sums_of, open_answer, open_shop, open_table, find_answer, record_of, find_record, row_answer, row_start};

use listing::LISTING_ROOM;
use picture::Conversion;
use records::{FrameRecord, RECORD_SIZE, STRIDED_RECORD_SIZE};
use stickers::TINT_CODES;
use tint::{Channels, Tint};

#[unsafe(no_mangle)]
pub extern "C" fn kiosk_from_srgb(depth: u32, src: &[u8], dst: &mut [u8], place: &mut usize) -> i64
    ensures { Converts (Conversion.FromSrgb depth) src.now result dst.old dst.new place.old place.new }
{
    kiosk::kiosk_from_srgb(depth, src, dst, place)
}

#[unsafe(no_mangle)]
pub extern "C" fn kiosk_to_srgb(
    depth: u32,
    src: &[u8],
    dst: &mut [u8],
    place: &mut usize,
    clipped: &mut usize,
) -> i64
    ensures gives { Converts (Conversion.ToSrgb depth) src.now result dst.old dst.new place.old place.new }
    ensures clips { clipped.new ≡ clips_after depth src.now (length dst.old) clipped.old }
{
    kiosk::kiosk_to_srgb(depth, src, dst, place, clipped)
}

#[unsafe(no_mangle)]
pub extern "C" fn kiosk_change_depth(
    from: u32,
    to: u32,
    src: &[u8],
    dst: &mut [u8],
    place: &mut usize,
) -> i64
    ensures { Converts (Conversion.ChangeDepth from to) src.now result dst.old dst.new place.old place.new }
{
    kiosk::kiosk_change_depth(from, to, src, dst, place)
}

#[unsafe(no_mangle)]
pub extern "C" fn kiosk_to_luma_chroma(
    depth: u32,
    src: &[u8],
    dst: &mut [u8],
    place: &mut usize,
) -> i64
    ensures { Converts (Conversion.ToLumaChroma depth) src.now result dst.old dst.new place.old place.new }
{
    kiosk::kiosk_to_luma_chroma(depth, src, dst, place)
}

#[unsafe(no_mangle)]
pub extern "C" fn kiosk_from_luma_chroma(
    depth: u32,
    src: &[u8],
    dst: &mut [u8],
    place: &mut usize,
) -> i64
    ensures { Converts (Conversion.FromLumaChroma depth) src.now result dst.old dst.new place.old place.new }
{
    kiosk::kiosk_from_luma_chroma(depth, src, dst, place)
}

#[unsafe(no_mangle)]
pub extern "C" fn kiosk_to_esycc(depth: u32, src: &[u8], dst: &mut [u8], place: &mut usize) -> i64
    ensures { Converts (Conversion.ToEsycc depth) src.now result dst.old dst.new place.old place.new }
{
    kiosk::kiosk_to_esycc(depth, src, dst, place)
}

#[unsafe(no_mangle)]
pub extern "C" fn kiosk_from_esycc(depth: u32, src: &[u8], dst: &mut [u8], place: &mut usize) -> i64
    ensures { Converts (Conversion.FromEsycc depth) src.now result dst.old dst.new place.old place.new }
{
    kiosk::kiosk_from_esycc(depth, src, dst, place)
}

#[unsafe(no_mangle)]
pub extern "C" fn kiosk_to_sycc(depth: u32, src: &[u8], dst: &mut [u8], place: &mut usize) -> i64
    ensures { Converts (Conversion.ToSycc depth) src.now result dst.old dst.new place.old place.new }
{
    kiosk::kiosk_to_sycc(depth, src, dst, place)
}

#[unsafe(no_mangle)]
pub extern "C" fn kiosk_from_sycc(depth: u32, src: &[u8], dst: &mut [u8], place: &mut usize) -> i64
    ensures { Converts (Conversion.FromSycc depth) src.now result dst.old dst.new place.old place.new }
{
    kiosk::kiosk_from_sycc(depth, src, dst, place)
}

#[unsafe(no_mangle)]
pub extern "C" fn kiosk_code_to_light(
    depth: u32,
    src: &[u8],
    dst: &mut [i32],
    place: &mut usize,
) -> i64
    ensures { Gives (codes_to_light_says depth src.now (length dst.old)) (codes_to_light depth src.now) result dst.old dst.new place.old place.new }
{
    kiosk::kiosk_code_to_light(depth, src, dst, place)
}

#[unsafe(no_mangle)]
pub extern "C" fn kiosk_light_to_code(depth: u32, src: &[i32], dst: &mut [u8]) -> i64
    ensures value { result ≡ answer_of (light_to_codes_says depth (length src.now) (length dst.old)) }
    ensures bytes { dst.new ≡ leaves (light_to_codes_says depth (length src.now) (length dst.old)) (light_to_codes depth src.now) dst.old }
{
    kiosk::kiosk_light_to_code(depth, src, dst)
}

#[unsafe(no_mangle)]
pub extern "C" fn kiosk_through_light(
    depth: u32,
    codes: &[u8],
    moves: &[i32],
    light: &mut [i32],
    back: &mut [u8],
    place: &mut usize,
) -> i64
    ensures gives { Gives (through_says depth codes.now (length moves.now) (length light.old) (length back.old)) (moved_codes depth codes.now moves.now) result back.old back.new place.old place.new }
    ensures numbers { light.new ≡ leaves (through_says depth codes.now (length moves.now) (length light.old) (length back.old)) (moved_light depth codes.now moves.now) light.old }
{
    kiosk::kiosk_through_light(depth, codes, moves, light, back, place)
}

#[unsafe(no_mangle)]
pub extern "C" fn kiosk_tint_code(red: u8, green: u8, blue: u8, pixel: &mut [u16; 3])
    ensures { pixel.new ≡ samples_of_one (tint_pixel (Tint.Code red green blue)) }
{
    kiosk::kiosk_tint_code(red, green, blue, pixel);
}

#[unsafe(no_mangle)]
pub extern "C" fn kiosk_tint_nonlinear(
    red: f64,
    green: f64,
    blue: f64,
    pixel: &mut [u16; 3],
    place: &mut usize,
) -> i64
    ensures { Tints (Tint.Nonlinear (channels red green blue)) result pixel.old pixel.new place.old place.new }
{
    kiosk::kiosk_tint_nonlinear(red, green, blue, pixel, place)
}

#[unsafe(no_mangle)]
pub extern "C" fn kiosk_tint_light(
    red: f64,
    green: f64,
    blue: f64,
    pixel: &mut [u16; 3],
    place: &mut usize,
) -> i64
    ensures { Tints (Tint.Light (channels red green blue)) result pixel.old pixel.new place.old place.new }
{
    kiosk::kiosk_tint_light(red, green, blue, pixel, place)
}

#[unsafe(no_mangle)]
pub extern "C" fn kiosk_stickers(
    src: &[u8],
    tints: &[u16; TINT_CODES],
    budget: usize,
    dst: &mut [u8],
    four: &mut [u8; 4],
    sums: &mut [u32; 2],
    place: &mut usize,
) -> i64
    ensures gives { Gives (request_says src.now tints.now budget (length dst.old)) (stickers src.now tints.now budget) result dst.old dst.new place.old place.new }
    ensures four { four.new ≡ leaves (request_says src.now tints.now budget (length dst.old)) (four_of (choice_of tints.now (picture_of src.now) budget)) four.old }
    ensures sums { sums.new ≡ leaves (request_says src.now tints.now budget (length dst.old)) (sums_of (choice_of tints.now (picture_of src.now) budget)) sums.old }
{
    kiosk::kiosk_stickers(src, tints, budget, dst, four, sums, place)
}

#[unsafe(no_mangle)]
pub extern "C" fn kiosk_printer(numbers: &[u32], bytes: &mut [u8], place: &mut usize) -> i64
    ensures { Gives (simulation_says numbers.now (length bytes.old)) (turn_bytes (arrivals numbers.now) (length bytes.old)) result bytes.old bytes.new place.old place.new }
{
    kiosk::kiosk_printer(numbers, bytes, place)
}

#[unsafe(no_mangle)]
pub extern "C" fn kiosk_round_trip(
    depth: u32,
    codes: &[u8],
    ycc: &mut [u8],
    back: &mut [u8],
    place: &mut usize,
    again: &mut i64,
    again_place: &mut usize,
) -> i64
    ensures there { Converts (Conversion.ToLumaChroma depth) codes.now result ycc.old ycc.new place.old place.new }
    ensures again { Converts (Conversion.FromLumaChroma depth) ycc.new again.new back.old back.new again_place.old again_place.new }
{
    kiosk::kiosk_round_trip(depth, codes, ycc, back, place, again, again_place)
}

#[unsafe(no_mangle)]
pub extern "C" fn kiosk_both_runs(
    depth: u32,
    picture: &[u8],
    codes: &mut [u8],
    ycc: &mut [u8],
    back: &mut [u8],
    direct: &mut [u8],
    round: &mut [u8],
    answers: &mut [i64; 5],
    places: &mut [usize; 5],
    clipped: &mut [usize; 2],
)
    ensures made { ConvertsAt 0 (Conversion.FromSrgb depth) picture.now codes.old codes.new answers.new places.old places.new }
    ensures there { ConvertsAt 1 (Conversion.ToLumaChroma depth) codes.new ycc.old ycc.new answers.new places.old places.new }
    ensures again { ConvertsAt 2 (Conversion.FromLumaChroma depth) ycc.new back.old back.new answers.new places.old places.new }
    ensures direct { ConvertsAt 3 (Conversion.ToSrgb depth) codes.new direct.old direct.new answers.new places.old places.new }
    ensures round { ConvertsAt 4 (Conversion.ToSrgb depth) back.new round.old round.new answers.new places.old places.new }
    ensures direct_clips { get_or clipped.new 0 0 ≡ clips_after depth codes.new (length direct.old) (get_or clipped.old 0 0) }
    ensures round_clips { get_or clipped.new 1 0 ≡ clips_after depth back.new (length round.old) (get_or clipped.old 1 0) }
{
    kiosk::kiosk_both_runs(
        depth, picture, codes, ycc, back, direct, round, answers, places, clipped,
    );
}

#[unsafe(no_mangle)]
pub extern "C" fn kiosk_open(file: &[u8], shop: &mut u16, table: &mut u32) -> i64
    ensures value { result ≡ open_answer (open_says file.now) }
    ensures shop { shop.new ≡ open_shop (open_says file.now) shop.old }
    ensures table { table.new ≡ open_table (open_says file.now) table.old }
{
    kiosk::kiosk_open(file, shop, table)
}

#[unsafe(no_mangle)]
pub extern "C" fn kiosk_find(file: &[u8], number: usize, frame: &mut [u8; RECORD_SIZE]) -> i64
    ensures value { result ≡ find_answer (find_says file.now number) }
    ensures frame { frame.new ≡ find_record Plain (find_says file.now number) }
{
    kiosk::kiosk_find(file, number, frame)
}

#[unsafe(no_mangle)]
pub extern "C" fn kiosk_find_strided(
    file: &[u8],
    number: usize,
    frame: &mut [u8; STRIDED_RECORD_SIZE],
) -> i64
    ensures value { result ≡ find_answer (find_says file.now number) }
    ensures frame { frame.new ≡ find_record Strided (find_says file.now number) }
{
    kiosk::kiosk_find_strided(file, number, frame)
}

#[unsafe(no_mangle)]
pub extern "C" fn kiosk_step(file: &[u8], next: &mut usize, frame: &mut [u8; RECORD_SIZE]) -> i64
    ensures value { result ≡ find_answer (find_says file.now next.old) }
    ensures frame { frame.new ≡ find_record Plain (find_says file.now next.old) }
    ensures next { next.new ≡ next_number file.now next.old }
{
    kiosk::kiosk_step(file, next, frame)
}

#[unsafe(no_mangle)]
pub extern "C" fn kiosk_step_strided(
    file: &[u8],
    next: &mut usize,
    frame: &mut [u8; STRIDED_RECORD_SIZE],
) -> i64
    ensures value { result ≡ find_answer (find_says file.now next.old) }
    ensures frame { frame.new ≡ find_record Strided (find_says file.now next.old) }
    ensures next { next.new ≡ next_number file.now next.old }
{
    kiosk::kiosk_step_strided(file, next, frame)
}

#[unsafe(no_mangle)]
pub extern "C" fn kiosk_row(file: &[u8], number: usize, row: usize, start: &mut usize) -> i64
    ensures value { result ≡ row_answer (find_says file.now number) row }
    ensures start { start.new ≡ row_start (find_says file.now number) row start.old }
{
    kiosk::kiosk_row(file, number, row, start)
}

#[unsafe(no_mangle)]
pub extern "C" fn kiosk_relayout(file: &[u8], dst: &mut [u8], place: &mut usize) -> i64
    ensures { Gives (relayout_says file.now (length dst.old)) (relaid file.now) result dst.old dst.new place.old place.new }
{
    kiosk::kiosk_relayout(file, dst, place)
}

#[unsafe(no_mangle)]
pub extern "C" fn kiosk_lay_out(
    records: &[FrameRecord],
    shop: u16,
    dst: &mut [u8],
    place: &mut usize,
) -> i64
    ensures { Gives (layout_says records.now (length dst.old)) (layout_bytes records.now shop dst.old) result dst.old dst.new place.old place.new }
{
    kiosk::kiosk_lay_out(records, shop, dst, place)
}

#[unsafe(no_mangle)]
pub extern "C" fn kiosk_listing(file: &[u8], text: &mut [u8; LISTING_ROOM]) -> usize
    ensures whole { take result text.new ≡ listing file.now }
    ensures within { result ≤ length text.new }
    ensures buffer { record { bytes = text.new; at = result } ≡ put_text (record { bytes = text.old; at = 0 }) (listing file.now) }
{
    kiosk::kiosk_listing(file, text)
}
