// A picture of codes through light that is moved (rule 6.12): codes to light, a number added to each number of
// light, and back to codes. It promises the answer, the moved light and the codes, and that moves within rule
// 6.10 bring back the same picture. It makes the calls that any caller makes, so that this is true of them.
ghost use Rattle.std.specs.Prelude.{◌≡◌, ◌/◌, length};
ghost use mathlib.Core.List.{zip_with};
ghost use Rattle.refusal.specs.Answers.{accepted, refuses_or, said};
ghost use Rattle.transfer.specs.Level.{offers_codes};
ghost use Rattle.linear.specs.Moved.{moved, through_fault, Through};

use crate::{code_to_light, light_to_code};
use refusal::{Answer, Refusal};
use samples::count_pixels;

// Codes to light, moved, and back to codes. Refused, both destinations stay as they were.
#[tactic(auto, using(crate::proofs::Through::ended_first))]
pub fn through_light(
    depth: u32,
    codes: &[u8],
    moves: &[i32],
    light: &mut [i32],
    back: &mut [u8],
) -> Answer
    ensures { Through depth codes.now moves.now light.old light.new back.old back.new (said result) }
{
    count_through(depth, codes.len(), moves.len(), light.len(), back.len())?;
    code_to_light(depth, codes, light)?;
    add_moves(moves, light);
    light_to_code(depth, light, back)
}

// Depth and lengths: the number of pixels, or a refusal.
fn count_through(depth: u32, codes: usize, moves: usize, light: usize, back: usize) -> Answer
    ensures { said result ≡ refuses_or (through_fault depth codes moves light back) (accepted (codes / 6)) }
{
    if !has_codes(depth) {
        return Err(Refusal::DepthNotOffered.into());
    }
    let pixels = count_pixels(true, false, codes, light)?;
    if moves != light || back != codes {
        return Err(Refusal::WrongDestinationLength.into());
    }
    Ok(pixels)
}

// Light has codes at 10 and 12 bits.
fn has_codes(depth: u32) -> bool
    ensures { result ≡ offers_codes depth }
{
    matches!(depth, 10 | 12)
}

// To each number of light its move. A sum stops at the ends of 32 bits. Moves are taken by index, because an invariant
// has no name for `light` while a zip lends it.
fn add_moves(moves: &[i32], light: &mut [i32])
    requires { length moves.now ≡ length light.old }
    ensures { light.new ≡ zip_with moved light.old moves.now }
{
    for (k, number) in light.iter_mut().enumerate() {
        *number = number.saturating_add(moves[k]);
    }
}
