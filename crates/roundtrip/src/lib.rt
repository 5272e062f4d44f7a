// Demand 3 (rules, section 5): a picture and its round trip through luma and chroma agree.
// `specs/Agreement.antt` states it of every picture and the whole chain of Convert's calls, and
// `proofs/Demand.antt` proves it. The two functions here make those calls, in buffers that the caller
// lends, and promise the same.
#![tactic(auto)]

ghost use Rattle.refusal.specs.Answers.{said};
ghost use Rattle.picture.specs.Convert.{converted_said, clips_of};
ghost use Rattle.roundtrip.specs.Programs.{Trip, BothRuns};

use picture::{Conversion, Converted};
use refusal::{Answer, Fault};

// The answers of the two calls.
#[derive(Clone, Copy)]
pub struct TripAnswers {
    pub there: Answer,
    pub again: Answer,
}

// The round trip, document 01's counter run: a picture of codes to luma and chroma, and back to codes in
// a third buffer.
pub fn round_trip(depth: u32, codes: &[u8], ycc: &mut [u8], back: &mut [u8]) -> TripAnswers
    ensures { Trip depth codes.now ycc.old ycc.new back.old back.new (said result.there) (said result.again) }
{
    let there = picture::convert(Conversion::ToLumaChroma { depth }, codes, ycc).map(|c| c.pixels);
    let again = picture::convert(Conversion::FromLumaChroma { depth }, ycc, back).map(|c| c.pixels);
    TripAnswers { there, again }
}

// What the five calls give, in their order. Those to sRGB also count the pixels that they clip.
#[derive(Clone, Copy)]
pub struct RunAnswers {
    pub made: Answer,
    pub there: Answer,
    pub again: Answer,
    pub direct: Result<Converted, Fault>,
    pub round: Result<Converted, Fault>,
}

// Both runs of an sRGB picture: to codes, the codes through luma and chroma and back, and then to 8 bits
// twice, `direct` from the codes and `round` from what came back.
pub fn both_runs(
    depth: u32,
    picture: &[u8],
    codes: &mut [u8],
    ycc: &mut [u8],
    back: &mut [u8],
    direct: &mut [u8],
    round: &mut [u8],
) -> RunAnswers
    ensures { BothRuns depth picture.now codes.old codes.new ycc.old ycc.new back.old back.new direct.old direct.new round.old round.new (said result.made) (said result.there) (said result.again) (converted_said result.direct) (converted_said result.round) (clips_of result.direct) (clips_of result.round) }
{
    let made = picture::convert(Conversion::FromSrgb { depth }, picture, codes).map(|c| c.pixels);
    let TripAnswers { there, again } = round_trip(depth, codes, ycc, back);
    let direct = picture::convert(Conversion::ToSrgb { depth }, codes, direct);
    let round = picture::convert(Conversion::ToSrgb { depth }, back, round);
    RunAnswers {
        made,
        there,
        again,
        direct,
        round,
    }
}
