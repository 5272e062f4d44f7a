// Whole numbers: how a quotient is rounded, how a number stands in bytes, how many elements of a list pass a
// test, sums and differences that stop at the ends of 16 bits, the lower of two and the greatest of many. The
// definitions of specs/ and the laws of proofs/ are what the crates above use; the functions take and give
// single numbers, so that they need no bound on an index and ask nothing of a caller.
#![tactic(auto)]

ghost use Rattle.std.specs.Prelude.{◌≡◌, [], ◌∷◌, ◌+◌, ◌-◌, min, max};
ghost use Rattle.numbers.specs.Bytes.{little_endian, low_bytes};
ghost use Rattle.numbers.specs.HowRanked.{rank};

// ---- bytes
// Two bytes and four have functions of their own: no trait of the library covers both widths, and one of our own would
// be longer than both.

// The number of two bytes, the low byte first.
pub fn from_two(bytes: [u8; 2]) -> u16
    ensures { result ≡ little_endian bytes }
{
    u16::from_le_bytes(bytes)
}

// The number of four bytes, the lowest first.
pub fn from_four(bytes: [u8; 4]) -> u32
    ensures { result ≡ little_endian bytes }
{
    u32::from_le_bytes(bytes)
}

// The two bytes of a number.
pub fn two_bytes(v: u16) -> [u8; 2]
    ensures { result ≡ low_bytes 2 v }
{
    u16::to_le_bytes(v)
}

// The four bytes of a number, the lowest first.
pub fn four_bytes(v: u32) -> [u8; 4]
    ensures { result ≡ low_bytes 4 v }
{
    u32::to_le_bytes(v)
}

// ---- numbers
// The library's methods, and a comparison, under names of their own, so that the wrong programs of must-fail/ hold each
// to its definition.

// How far a number is above a limit, and 0 if it is not: a difference of ℕ. A processor has one instruction
// that does this to several samples at once.
pub fn excess(x: u16, limit: u16) -> u16
    ensures { result ≡ x - limit }
{
    x.saturating_sub(limit)
}

// The sum of two numbers, and the greatest of 16 bits if it is more. For this too there is one instruction.
pub fn saturating_add(x: u16, y: u16) -> u16
    ensures { result ≡ min 65535 (x + y) }
{
    x.saturating_add(y)
}

pub fn lower(x: u32, y: u32) -> u32
    ensures { result ≡ min x y }
{
    x.min(y)
}

// The greatest so far, and one number more. Processors have an instruction for the greater of several pairs of
// signed numbers of 16 bits, and not all have one for unsigned ones: so the greatest is kept as the signed
// number that has it for its rank. That of 0 is -32,768. A comparison, and no `max`: over `max` no wrong program of
// must-fail/ keeps the form of a right one.
pub fn raised(top: i16, x: u16) -> i16
    ensures { rank result ≡ max (rank top) x }
{
    let signed = (x as i32 - 32768) as i16;
    if top < signed { signed } else { top }
}

// The greatest itself.
pub fn rank_of(top: i16) -> u16
    ensures { result ≡ rank top }
{
    (top as i32 + 32768) as u16
}
