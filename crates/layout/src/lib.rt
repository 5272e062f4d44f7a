// Laying out a spool (rule 7.8) from a lent list of records: a pass over them that checks, the header, and
// a pass that writes. It promises the refusals in the rule's order, and every byte of the destination; it
// asks nothing of a caller. The steps take either layout; `lay_out` itself writes plain spools.
#![tactic(auto)]

ghost use Rattle.std.specs.Prelude.{◌≡◌, ◌≤◌, length};
ghost use Rattle.records.specs.declared.Layout.TheVariants.{Plain};
ghost use Rattle.records.specs.Faults.{frame_limit};
ghost use Rattle.records.specs.Pixels.{pixel_bytes};
ghost use Rattle.refusal.specs.Answers.{accepted, said, leaves};
ghost use Rattle.layout.specs.LayOut.{layout_says, layout_bytes, records_say};
ghost use Rattle.layout.specs.HowLaidOut.{state_of, starts, grown, summed, checked, record_written, visited, walked, begun, readied};

use records::{
    FRAME_LIMIT, FrameRecord, Header, Layout, check_record, header_bytes, header_size, packed,
    pixel_bytes, record_size, strided_bytes, too_many_frames, with_offset,
};
use refusal::{Answer, Refusal};

// ---- one step at a time

// The greatest length that a header can say.
const LENGTH_LIMIT: usize = 4294967295;

// The end of a frame's pixels that start at `end`. It no longer grows once it is past the limit, so that
// no list of records overflows it, and what `visit` answers past the limit is this end, and not the
// greatest number.
fn grow(end: usize, frame: FrameRecord) -> usize
    ensures { result ≡ grown end (pixel_bytes frame) }
{
    if LENGTH_LIMIT < end {
        return end;
    }
    end + pixel_bytes(frame)
}

// The check of record number `place`, whose pixels start at `end`: where they end.
pub fn check(end: usize, place: usize, frame: FrameRecord) -> Answer
    ensures { said result ≡ checked end place frame }
{
    check_record(frame).map_err(|refusal| refusal.at(place))?;
    Ok(grow(end, frame))
}

// Writes the record of frame number `place`, with its pixels at `end`, if it has a place there.
#[tactic(auto, using(crate::proofs::Written::record_taken, crate::proofs::Written::puts_record), unfolding(crate::specs::HowLaidOut::record_written))]
fn write_record(dst: &mut [u8], layout: Layout, place: usize, end: usize, frame: FrameRecord)
    ensures { dst.new ≡ record_written layout place end frame dst.old }
{
    if FRAME_LIMIT <= place || LENGTH_LIMIT < end {
        return;
    }
    let size = record_size(layout);
    let at = header_size(layout) + size * place;
    if dst.len() < at + size {
        return;
    }
    let bytes = strided_bytes(packed(with_offset(end as u32, frame)));
    dst[at..at + size].copy_from_slice(&bytes[..size]);
}

// The same check after what a pass has answered so far, and the record written if it is sound. A pass that has been
// refused stays so, and writes nothing. Both passes check, so that neither has to know that the other came before
// it. Where a record goes is four parameters: a struct of them would be made for one call, and is no plainer.
#[tactic(auto, using(crate::proofs::Passes::stays_refused))]
pub fn visit(
    dst: &mut [u8],
    layout: Layout,
    so_far: Answer,
    place: usize,
    frame: FrameRecord,
) -> Answer
    ensures { state_of result dst.new ≡ visited layout (state_of so_far dst.old) place frame }
{
    let end = so_far?;
    let next = check(end, place, frame)?;
    write_record(dst, layout, place, end, frame);
    Ok(next)
}

// The header, once the records are known to be sound and their pixels to take so many bytes: the total
// length is checked. The answer is where the pixels start.
fn begin(layout: Layout, count: usize, shop: u16, pixels: usize, dst: &mut [u8]) -> Answer
    requires { count ≤ frame_limit }
    ensures { state_of result dst.new ≡ begun layout count shop (accepted pixels) dst.old }
{
    let least = header_size(layout);
    let size = record_size(layout);
    let first = least + size * count;
    let total = first.saturating_add(pixels);
    if LENGTH_LIMIT < total {
        return Err(Refusal::TotalTooLong.into());
    }
    if dst.len() != total {
        return Err(Refusal::WrongDestinationLength.into());
    }
    let header = Header {
        count: count as u16,
        shop,
        table: least as u32,
        length: total as u32,
        size: size as u16,
    };
    let bytes = header_bytes(layout, header);
    dst[..least].copy_from_slice(&bytes[..least]);
    Ok(first)
}

// Between the pass that checks and the pass that writes: the refusals in the rule's order, and the
// header. `checked` is what the first pass answers, a refusal too, since too many frames are refused
// before it; the second pass starts where this answer says.
#[tactic(auto, using(crate::proofs::Begun::begun_stopped), unfolding(crate::specs::HowLaidOut::readied))]
pub fn ready(layout: Layout, count: usize, shop: u16, checked: Answer, dst: &mut [u8]) -> Answer
    ensures { state_of result dst.new ≡ readied layout count shop (said checked) dst.old }
{
    if too_many_frames(count) {
        return Err(Refusal::TooManyFrames.into());
    }
    begin(layout, count, shop, checked?, dst)
}

// ---- the passes

// The pass that checks: the first record at fault, or the bytes of all pixels.
#[tactic(auto, using(crate::proofs::Passes::check_more, crate::proofs::Passes::check_ended, crate::proofs::Passes::check_none))]
fn check_records(records: &[FrameRecord]) -> Answer
    ensures { said result ≡ records_say (accepted (summed 0 records.now)) 0 records.now }
{
    let mut end = 0;
    for (place, frame) in records.iter().enumerate() {
        end = check(end, place, *frame)?;
    }
    Ok(end)
}

// The pass that writes, in a plain spool whose pixels start at `first`. It is two lines round `visit`, as the pass of
// `relayout` is: a function over both would take the records from a closure.
#[tactic(auto, using(crate::proofs::Checking::stays, crate::proofs::Passes::one_more, crate::proofs::Passes::none_left))]
fn write_records(records: &[FrameRecord], first: usize, dst: &mut [u8]) -> Answer
    ensures { state_of result dst.new ≡ walked Plain records.now 0 (starts first dst.old) }
{
    let mut end = first;
    for (place, frame) in records.iter().enumerate() {
        end = visit(dst, Layout::Plain, Ok(end), place, *frame)?;
    }
    Ok(end)
}

// Lays out a spool of these records in the destination.
pub fn lay_out(records: &[FrameRecord], shop: u16, dst: &mut [u8]) -> Answer
    ensures { (said result ≡ layout_says records.now (length dst.old)) × (dst.new ≡ leaves (layout_says records.now (length dst.old)) (layout_bytes records.now shop dst.old) dst.old) }
{
    let checked = check_records(records);
    let first = ready(Layout::Plain, records.len(), shop, checked, dst)?;
    write_records(records, first, dst)
}
