// Runs the examples of rules 10.6 and 10.7, codes next to black and white, both runs of the blue of rule 10.5
// and a walk over the sample file, and prints what the library gives. `stdout` beside this has what the second
// implementation gives for them: see rust/reference, whose program of the same name prints it.
#![tactic(auto)]

use picture::Conversion;
use refusal::Refusal;
use std::io;

// A pixel of two bytes a sample, which all have one code.
fn pixel_of(code: u16) -> [u8; 6] {
    let [low, high] = numbers::two_bytes(code);
    [low, high, low, high, low, high]
}

// A code brought from one depth to another: 0 where that is refused.
fn depth_row(rt: &impl Print, from: u32, to: u32, code: u16) -> io::Result<()> {
    let mut dst = [0; 6];
    let _ = picture::convert(
        Conversion::ChangeDepth { from, to },
        &pixel_of(code),
        &mut dst,
    );
    println!(rt;
        "depth {from} {to} {code} {}",
        numbers::from_two([dst[0], dst[1]])
    )
}

// A code brought to sRGB, and 1 if sRGB cannot hold it.
fn srgb_row(rt: &impl Print, depth: u32, code: u16) -> io::Result<()> {
    let mut dst = [0; 3];
    let given = picture::convert(Conversion::ToSrgb { depth }, &pixel_of(code), &mut dst);
    let clipped = given.map_or(0, |converted| converted.clipped);
    println!(rt; "srgb {depth} {code} {} {clipped}", dst[0])
}

// The code of a light, 0 where its depth has none.
fn code_of(depth: u32, light: i32) -> u16 {
    linear::code_of_light(depth, light).unwrap_or(0)
}

// A neutral patch: its light, and its codes at 10 and 12 bits.
fn patch_row(rt: &impl Print, light: i32) -> io::Result<()> {
    println!(rt;
        "patch {light} {} {}",
        code_of(10, light),
        code_of(12, light)
    )
}

// The codes of a pixel of two bytes a sample.
fn show_codes(rt: &impl Print, pixel: &[u8; 6]) -> io::Result<()> {
    let (codes, _) = pixel.as_chunks::<2>();
    for code in codes {
        print!(rt; " {}", numbers::from_two(*code))?;
    }
    Ok(())
}

// A pixel of sRGB.
fn show_srgb(rt: &impl Print, pixel: &[u8; 3]) -> io::Result<()> {
    for byte in pixel {
        print!(rt; " {byte}")?;
    }
    Ok(())
}

// Both runs of the blue of sRGB: its codes, their luma and chroma, the codes that come back, and both at 8 bits.
fn runs_row(rt: &impl Print, depth: u32) -> io::Result<()> {
    let blue = [0, 0, 255];
    let mut codes = [0; 6];
    let mut ycc = [0; 6];
    let mut back = [0; 6];
    let mut direct = [0; 3];
    let mut round = [0; 3];
    roundtrip::both_runs(
        depth,
        &blue,
        &mut codes,
        &mut ycc,
        &mut back,
        &mut direct,
        &mut round,
    );
    print!(rt; "runs {depth}")?;
    show_codes(rt, &codes)?;
    show_codes(rt, &ycc)?;
    show_codes(rt, &back)?;
    show_srgb(rt, &direct)?;
    show_srgb(rt, &round)?;
    println!(rt; "")
}

// The number of a refusal, 0 where there is none.
fn refusal_of<T: Drop>(answer: Result<T, Refusal>) -> u8 {
    answer.err().map_or(0, refusal::number)
}

// In the spools below a header is the frames, the shop, where the records begin and the file's length; a record is where
// the pixels begin, width, height, kind, bits, copies and order.

// A spool with one frame of sRGB, one row of this width.
fn width_row(rt: &impl Print, width: u16) -> io::Result<()> {
    let [low, high] = numbers::two_bytes(width);
    let mut file = [0; 24604];
    file[..12].copy_from_slice(&[1, 0, 0, 0, 12, 0, 0, 0, 28, 96, 0, 0]);
    file[12..22].copy_from_slice(&[28, 0, 0, 0, low, high, 1, 0, 1, 8]);
    println!(rt; "width {width} {}", refusal_of(spool::find(&file, 0)))
}

// A spool of so many frames, with room for the records of 97.
fn frames_row(rt: &impl Print, count: u8) -> io::Result<()> {
    let mut file = [0; 1564];
    file[..12].copy_from_slice(&[count, 0, 0, 0, 12, 0, 0, 0, 28, 6, 0, 0]);
    println!(rt; "frames {count} {}", refusal_of(spool::open(&file)))
}

// The header and the records of samples/two-frames.spool, whose pixels are not looked at.
fn two_frames() -> [u8; 56] {
    let mut file = [0; 56];
    file[..12].copy_from_slice(&[2, 0, 7, 0, 12, 0, 0, 0, 56, 0, 0, 0]);
    file[12..28].copy_from_slice(&[44, 0, 0, 0, 2, 0, 1, 0, 1, 8, 1, 0, 245, 1, 0, 0]);
    file[28..44].copy_from_slice(&[50, 0, 0, 0, 1, 0, 1, 0, 2, 10, 3, 0, 245, 1, 0, 0]);
    file
}

// A walk over that file, one step past its end: the offset of what each step finds, or the refusal's number, and the
// number after it.
fn step_rows(rt: &impl Print) -> io::Result<()> {
    let file = two_frames();
    let mut rest = frames::frames_of(&file);
    for _ in 0..3 {
        let stepped = frames::step(rest);
        rest = stepped.rest;
        match stepped.frame.found {
            Ok(strided) => println!(rt; "step {} {}", strided.frame.offset, rest.next)?,
            Err(why) => println!(rt; "step refused {} {}", refusal::number(why), rest.next)?,
        }
    }
    Ok(())
}

fn main(rt: HostRuntime) -> io::Result<()> {
    for (from, to, code) in [
        (10, 12, 1023),
        (12, 10, 1538),
        (12, 10, 1539),
        (12, 10, 4095),
        (16, 10, 65535),
        (16, 12, 65535),
    ] {
        depth_row(&rt, from, to, code)?;
    }
    for (depth, code) in [
        (10, 383),
        (10, 384),
        (10, 894),
        (10, 895),
        (12, 1535),
        (12, 1536),
        (12, 3576),
        (12, 3577),
        (16, 24575),
        (16, 24576),
        (16, 57216),
        (16, 57217),
    ] {
        srgb_row(&rt, depth, code)?;
    }
    for depth in [10, 12] {
        runs_row(&rt, depth)?;
    }
    for width in [8192, 8193] {
        width_row(&rt, width)?;
    }
    for count in [96, 97] {
        frames_row(&rt, count)?;
    }
    step_rows(&rt)?;
    for light in [
        0, 10100, 30300, 70710, 141410, 292930, 595960, 797980, 1000000,
    ] {
        patch_row(&rt, light)?;
    }
    Ok(())
}
