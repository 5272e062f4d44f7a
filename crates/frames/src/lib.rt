// The frames of a spool one after another (rule 7.7): document 01's walker. It promises that each step
// gives what finding the frame gives, and the number of the frame to come; it asks nothing of a caller.
#![tactic(auto)]

ghost use Rattle.std.specs.Prelude.{◌≡◌};
ghost use Rattle.spool.specs.Find.{find_said, find_says};
ghost use Rattle.frames.specs.Walk.{next_number, started, IsStep};

use spool::{Found, find, open, pixels};

// The number after a step: it stays if the file does not open, 20 included, or has no such frame; any
// other refusal, 21 too, is of the frame alone, so that the walk moves on.
fn next_number(file: &[u8], number: usize) -> usize
    ensures { result ≡ next_number file.now number }
{
    match open(file) {
        Ok(contents) if number < contents.count as usize => number + 1,
        _ => number,
    }
}

// What is found at a number, and the number of the frame to look for next, for callers that have no `Frames`: C holds
// the file and the number apart.
#[derive(Clone, Copy)]
pub struct Visit {
    pub found: Found,
    pub next: usize,
}

// One step from a number, for callers that have the file and the number apart.
pub fn step_from(file: &[u8], number: usize) -> Visit
    ensures { (find_said result.found ≡ find_says file.now number) × (result.next ≡ next_number file.now number) }
{
    let found = find(file, number);
    let next = next_number(file, number);
    Visit { found, next }
}

// A walk over the frames of a spool: the file, and the number of the frame to come. It is no Iterator, since it has no
// end: a frame that is refused is a step like any other, and so is the refusal behind the last frame.
#[derive(Clone, Copy)]
pub struct Frames<'a> {
    pub file: &'a [u8],
    pub next: usize,
}

// A frame as a step gives it: its pixels in the lent file, and what was found.
#[derive(Clone, Copy)]
pub struct FoundFrame<'a> {
    pub pixels: &'a [u8],
    pub found: Found,
}

// What a step gives: the frame, and the frames that are left.
#[derive(Clone, Copy)]
pub struct Stepped<'a> {
    pub frame: FoundFrame<'a>,
    pub rest: Frames<'a>,
}

// The frames of a file, from the first on.
pub fn frames_of<'a>(file: &'a [u8]) -> Frames<'a>
    ensures { result ≡ started file.entry }
{
    Frames { file, next: 0 }
}

// One step: the next frame, and the frames after it.
pub fn step<'a>(frames: Frames<'a>) -> Stepped<'a>
    ensures { IsStep frames.entry result }
{
    let visit = step_from(frames.file, frames.next);
    let pixels = pixels(frames.file, frames.next);
    Stepped {
        frame: FoundFrame {
            pixels,
            found: visit.found,
        },
        rest: Frames {
            next: visit.next,
            ..frames
        },
    }
}
