// Doubles: whether one is finite, and the whole number nearest to it. Both promise it of every double, the
// infinite ones and what is not a number too: the first is the logic's own `finite`, the second stands in
// specs/Doubles.antt. Nothing is rounded on the way.
#![tactic(auto)]

ghost use Rattle.std.specs.Prelude.{◌≡◌};
ghost use Rattle.std.specs.Float.Ieee.Scale.{finite};
ghost use Rattle.doubles.specs.Doubles.{nearest_whole};
ghost use Rattle.doubles.specs.HowWhole.{nearest_size};

// Neither infinite nor not a number. The two laws of infinity are named for the wrong programs, which compare with it.
#[tactic(auto, using(crate::proofs::Whole::finite_is, crate::proofs::Whole::below_infinity, crate::proofs::Whole::not_below_infinity))]
pub fn is_finite(x: f64) -> bool
    ensures { result ≡ finite x }
{
    x.is_finite()
}

// The whole number nearest to x, ties upward, clipped to -below..above. Ties upward of a number below 0 are
// ties downward of its size.
#[tactic(auto, using(crate::proofs::Whole::of_negative, crate::proofs::Whole::of_other, numbers::proofs::Sign::opposite_is))]
pub fn nearest_whole(x: f64, below: u32, above: u32) -> i64
    ensures { result ≡ nearest_whole below above x }
{
    if x < 0.0 {
        -(nearest_size(-x, below, Ties::Down) as i64)
    } else {
        nearest_size(x, above, Ties::Up) as i64
    }
}

// Where a number halfway between two whole numbers goes. It is a name and no closure, so that a contract can say it.
#[derive(Clone, Copy)]
enum Ties {
    Up,
    Down,
}

// The same of a size, clipped to 0..top: 0 for what is not above 0, also for what is not a number. Below top, a
// whole number and a half is exactly a double.
#[tactic(auto, using(crate::proofs::Whole::at_zero, crate::proofs::Whole::at_top, crate::proofs::Whole::tested_less))]
fn nearest_size(x: f64, top: u32, ties: Ties) -> u32
    ensures { result ≡ nearest_size ties top x }
{
    if !(x > 0.0) {
        return 0;
    }
    if !(x < (top as f64)) {
        return top;
    }
    let whole = std::num::truncating_f64_to_u64(x) as u32;
    let halfway = (whole as f64) + 0.5;
    match ties {
        Ties::Up => if x < halfway { whole } else { whole + 1 },
        Ties::Down => if halfway < x { whole + 1 } else { whole },
    }
}
