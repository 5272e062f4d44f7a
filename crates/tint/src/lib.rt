// Brand tints (rules, section 11): a colour as 8-bit values, nonlinear numbers or light becomes a pixel of
// 12-bit e-sRGB. For every tint it promises the pixel, or 17 and the channel that is not finite, and asks
// nothing of a caller.
#![tactic(auto)]

ghost use Rattle.std.specs.Prelude.{◌≡◌};
ghost use Rattle.tint.specs.Tints.{nonlinear_code, light_number, first_fault, tint_fault, tint_pixel, tint_said, tint_says};

use doubles::{is_finite, nearest_whole};
use esrgb::{Depth, from_srgb};
use linear::pixel_of_light;
use refusal::{Fault, Refusal};
use samples::Pixel;

// The channels of a tint in double precision.
#[derive(Clone, Copy)]
pub struct Channels {
    pub red: f64,
    pub green: f64,
    pub blue: f64,
}

#[derive(Clone, Copy)]
pub enum Tint {
    // Values of 8-bit sRGB.
    Code(u8, u8, u8),
    // 0 is black and 1 is white.
    Nonlinear(Channels),
    // Linear light, where 1 is reference white.
    Light(Channels),
}

// A tint as a pixel of 12-bit codes, or why it is refused, and the channel at fault as place: 0 is red, 1 green,
// 2 blue. All channels are looked at before one is converted.
#[tactic(auto, unfolding(crate::specs::Tints::tint_says))]
pub fn to_pixel(tint: Tint) -> Result<Pixel, Fault>
    ensures { tint_said result ≡ tint_says tint }
{
    match fault_of(tint) {
        Some(channel) => Err(Refusal::NotFinite.at(channel)),
        None => Ok(converted(tint)),
    }
}

// The first channel that is infinite or not a number. Values of 8-bit sRGB are neither.
#[tactic(auto, unfolding(crate::specs::Tints::tint_fault))]
fn fault_of(tint: Tint) -> Option<usize>
    ensures { result ≡ tint_fault tint }
{
    match tint {
        Tint::Code(_, _, _) => None,
        Tint::Nonlinear(channels) | Tint::Light(channels) => first_fault(channels),
    }
}

fn first_fault(channels: Channels) -> Option<usize>
    ensures { result ≡ first_fault channels }
{
    [channels.red, channels.green, channels.blue]
        .iter()
        .position(|x| !is_finite(*x))
}

#[tactic(auto, unfolding(crate::specs::Tints::tint_pixel))]
fn converted(tint: Tint) -> Pixel
    ensures { result ≡ tint_pixel tint }
{
    match tint {
        Tint::Code(red, green, blue) => Pixel {
            first: from_srgb(Depth::Twelve, red),
            second: from_srgb(Depth::Twelve, green),
            third: from_srgb(Depth::Twelve, blue),
        },
        Tint::Nonlinear(channels) => Pixel {
            first: nonlinear_code(channels.red),
            second: nonlinear_code(channels.green),
            third: nonlinear_code(channels.blue),
        },
        Tint::Light(channels) => pixel_of_light(
            light_number(channels.red),
            light_number(channels.green),
            light_number(channels.blue),
        ),
    }
}

// The level of white, the code of black and the greatest code, at 12 bits.
const SCALE: f64 = 2040.0;

const OFFSET: f64 = 1536.0;

const GREATEST_CODE: u32 = 4095;

// The code of a nonlinear number. The product and the sum are each rounded to a double, in this order.
fn nonlinear_code(number: f64) -> u16
    ensures { result ≡ nonlinear_code number }
{
    let product = number * SCALE;
    let sum = product + OFFSET;
    nearest_whole(sum, 0, GREATEST_CODE) as u16
}

// Light is counted in millionths, up to twice reference white on either side of black.
const MILLION: f64 = 1000000.0;

const LIGHT_LIMIT: u32 = 2000000;

// Light in millionths. The product is rounded to a double.
fn light_number(number: f64) -> i32
    ensures { result ≡ light_number number }
{
    let product = number * MILLION;
    nearest_whole(product, LIGHT_LIMIT, LIGHT_LIMIT) as i32
}
