// Carrying a spool to the other layout (rule 7.10): its frames are checked, the header and the table are laid
// out as `layout` does, and the pixels are copied. It promises the refusals in the rule's order, every byte of
// the destination, and that each frame keeps its record and its rows, there and back; it asks nothing of a
// caller.
#![tactic(auto)]

ghost use Rattle.std.specs.Prelude.{◌≡◌, false, ℕ, ◌+◌, ◌≤◌, ◌<◌, length};
ghost use Rattle.refusal.specs.Answers.{sound, accepted, said, leaves};
ghost use Rattle.records.specs.Layout.{header_of};
ghost use Rattle.spool.specs.Open.{open_fault};
ghost use Rattle.spool.specs.Find.{record_at, frame_fault};
ghost use Rattle.layout.specs.LayOut.{all_pixels};
ghost use Rattle.layout.specs.HowLaidOut.{state_of, starts, walked};
ghost use Rattle.relayout.specs.Relayout.{records_of, frames_say, relayout_says, pixels_of, relaid};
ghost use Rattle.relayout.specs.HowCarried.{IsFrame, over};
ghost use Rattle.relayout.specs.Carried.{Carried};

use layout::{ready, visit};
use records::{FrameRecord, Layout, layout_of, other_layout, pixel_bytes};
use refusal::{Answer, Fault};
use spool::{frame_at, open, pixels};

// A file that opens, with what its header says.
#[derive(Clone, Copy)]
struct OpenSpool<'a> {
    file: &'a [u8],
    count: usize,
    shop: u16,
    ghost opens: { open_fault file.now ≡ sound },
    ghost counted: { count ≡ (header_of file.now).count },
    ghost owned: { shop ≡ (header_of file.now).shop },
}

impl<'a> OpenSpool<'a> {
    // The record of a frame whose rows have no gaps, or what is at fault with it. One match maps both.
    fn frame(&self, k: usize) -> Result<FrameRecord, Fault>
        requires { k < self.now.count }
        ensures { IsFrame self.now.file.now k result }
    {
        match frame_at(self.file, k, false) {
            Ok(strided) => Ok(strided.frame),
            Err(refusal) => Err(refusal.at(k)),
        }
    }

    // The frames: the first one at fault, or the bytes of all their pixels.
    #[tactic(auto, using(crate::proofs::Frames::said_there, crate::proofs::Frames::sum_more, crate::proofs::Frames::sum_faulty, crate::proofs::Frames::sum_none))]
    fn check_frames(&self) -> Answer
        ensures { said result ≡ frames_say self.now.file.now (accepted (all_pixels (records_of self.now.file.now))) self.now.count 0 }
    {
        let mut sum = 0;
        for k in 0..self.count {
            sum += pixel_bytes(self.frame(k)?);
        }
        Ok(sum)
    }

    // Writes the table of sound frames, so that none of them is refused here. It is two lines round `visit`, as
    // `write_records` of `layout` is: a function over both would take the records from a closure.
    #[tactic(auto, using(layout::proofs::Checking::stays, crate::proofs::Frames::walk_more, crate::proofs::Frames::walk_none))]
    fn write_table(&self, layout: Layout, first: usize, dst: &mut [u8]) -> Answer
        requires frames_sound { (k : ℕ) → k < self.now.count → frame_fault false self.now.file.now (record_at self.now.file.now k) ≡ sound }
        ensures { state_of result dst.new ≡ walked layout (records_of self.now.file.now) 0 (starts first dst.old) }
    {
        let mut end = first;
        for k in 0..self.count {
            let frame = self.frame(k)?;
            end = visit(dst, layout, Ok(end), k, frame)?;
        }
        Ok(end)
    }

    // Copies the frames' pixels, one frame after another, from `first` on.
    fn copy_pixels(&self, first: usize, dst: &mut [u8])
        requires pixels_fit { first + length (pixels_of self.now.file.now) ≤ length dst.old }
        ensures { dst.new ≡ over dst.old first (pixels_of self.now.file.now) }
    {
        let mut at = first;
        for k in 0..self.count {
            let part = pixels(self.file, k);
            dst[at..at + part.len()].copy_from_slice(part);
            at += part.len();
        }
    }

    // Carries the spool to the other layout.
    fn carry(&self, dst: &mut [u8]) -> Answer
        ensures answer { said result ≡ relayout_says self.now.file.now (length dst.old) }
        ensures bytes { dst.new ≡ leaves (relayout_says self.now.file.now (length dst.old)) (relaid self.now.file.now) dst.old }
    {
        let layout = other_layout(layout_of(self.file));
        let checked = self.check_frames();
        let first = ready(layout, self.count, self.shop, checked, dst)?;
        let total = self.write_table(layout, first, dst)?;
        self.copy_pixels(first, dst);
        Ok(total)
    }
}

// Carries a spool to the other layout.
pub fn relayout(file: &[u8], dst: &mut [u8]) -> Answer
    ensures answer { said result ≡ relayout_says file.now (length dst.old) }
    ensures bytes { dst.new ≡ leaves (relayout_says file.now (length dst.old)) (relaid file.now) dst.old }
    ensures carried { Carried file.now (said result) dst.new }
{
    let contents = open(file)?;
    let spool = OpenSpool {
        file,
        count: usize::from(contents.count),
        shop: contents.shop,
    };
    spool.carry(dst)
}
