// The header and the records of a spool file, in either of its layouts: their numbers, read from bytes
// and written as bytes, what a record may say, and how many there may be. It promises every number and every
// byte of rule 7.2's layouts, its limit of frames, and the refusals of a record by rules 7.3 and 7.4; it asks
// nothing of a caller.
#![tactic(auto)]

ghost use Rattle.std.specs.Prelude.{◌≡◌, ◌+◌, ◌≤◌, length, take, drop, ltb};
ghost use Rattle.esrgb.specs.Depths.{offered};
ghost use Rattle.numbers.specs.Bytes.{little_endian};
ghost use Rattle.refusal.specs.Answers.{verdict};
ghost use Rattle.records.specs.declared.Layout.TheVariants.{Plain, Strided};
ghost use Rattle.records.specs.Layout.{header_size, record_size, first_number, layout_of, other_layout, no_record, with_offset, header_in, record_in, record_bytes, ReadsHeader, ReadsRecord};
ghost use Rattle.records.specs.HowStored.{frame_in, stride_in, long_header};
ghost use Rattle.records.specs.Pixels.{row_bytes, pixel_bytes, span_bytes, has_gaps, packed};
ghost use Rattle.records.specs.Faults.{IsKind, frame_limit, is_pair, bad_side, record_fault, stride_fault};

use esrgb::Depth;
use numbers::{four_bytes, from_four, from_two, two_bytes};
use refusal::Refusal;
use samples::pixel_size;

// The bytes of a header and of a record, in the plain layout and in the strided one.
const HEADER_SIZE: usize = 12;

pub const RECORD_SIZE: usize = 16;

const STRIDED_HEADER_SIZE: usize = 16;

pub const STRIDED_RECORD_SIZE: usize = 20;

// What the first two bytes of a strided spool say. No plain spool that opens has so many frames.
const STRIDED_MARK: u16 = 65535;

// The most frames that a spool has.
pub const FRAME_LIMIT: usize = 96;

// The greatest width and height of a frame.
const SIDE_LIMIT: u16 = 8192;

// The two layouts of a spool. The records of a strided one say how far it is from row to row.
#[derive(Clone, Copy)]
pub enum Layout {
    Plain,
    Strided,
}

// The header's numbers. `size` is that of a record, which a plain header does not say.
#[derive(Clone, Copy)]
pub struct Header {
    pub count: u16,
    pub shop: u16,
    pub table: u32,
    pub length: u32,
    pub size: u16,
}

// A frame's record, its numbers in the order in which they stand in the file. The C interface lends records of this
// shape.
#[repr(C)]
#[derive(Clone, Copy, Default)]
pub struct FrameRecord {
    pub offset: u32,
    pub width: u16,
    pub height: u16,
    pub kind: u8,
    pub bits: u8,
    pub copies: u16,
    pub order: u32,
}

// A record with its stride, document 02's row step: the bytes from the start of a row to that of the next.
#[derive(Clone, Copy, Default)]
pub struct StridedRecord {
    pub frame: FrameRecord,
    pub stride: u32,
}

// The record of zeros, which stands where a frame is refused.
pub fn no_record() -> StridedRecord
    ensures { result ≡ no_record }
{
    StridedRecord::default()
}

// A record with another offset of its pixels.
pub fn with_offset(offset: u32, frame: FrameRecord) -> FrameRecord
    ensures { result ≡ with_offset offset frame }
{
    FrameRecord { offset, ..frame }
}

// ---- the layouts

// What they differ in has a match each, with the numbers beside the layout's name: one function that is given the two
// numbers would be no plainer.

pub fn other_layout(layout: Layout) -> Layout
    ensures { result ≡ other_layout layout }
{
    match layout {
        Layout::Plain => Layout::Strided,
        Layout::Strided => Layout::Plain,
    }
}

pub fn header_size(layout: Layout) -> usize
    ensures { result ≡ header_size layout }
{
    match layout {
        Layout::Plain => HEADER_SIZE,
        Layout::Strided => STRIDED_HEADER_SIZE,
    }
}

pub fn record_size(layout: Layout) -> usize
    ensures { result ≡ record_size layout }
{
    match layout {
        Layout::Plain => RECORD_SIZE,
        Layout::Strided => STRIDED_RECORD_SIZE,
    }
}

// The first number of a header with so many frames.
fn first_number(layout: Layout, count: u16) -> u16
    ensures { result ≡ first_number layout count }
{
    match layout {
        Layout::Plain => count,
        Layout::Strided => STRIDED_MARK,
    }
}

// ---- from bytes
// A layout and the bytes are two parameters: a struct of them would be made for one call, and is no plainer.

// So many bytes from a place on.
fn bytes_at<const N: usize>(bytes: &[u8], at: usize) -> [u8; N]
    requires { at + N ≤ length bytes.now }
    ensures { result ≡ take N (drop at bytes.now) }
{
    *bytes[at..].first_chunk().unwrap()
}

// The layout of a file.
#[tactic(auto, unfolding(crate::specs::Layout::layout_of))]
pub fn layout_of(file: &[u8]) -> Layout
    ensures { result ≡ layout_of file.now }
{
    match file.first_chunk() {
        Some(first) if from_two(*first) == STRIDED_MARK => Layout::Strided,
        _ => Layout::Plain,
    }
}

// The frame count of a header, and the size of its records.
#[tactic(auto, unfolding(crate::specs::Layout::header_in))]
fn count_in(layout: Layout, bytes: &[u8]) -> u16
    requires { header_size layout ≤ length bytes.now }
    ensures { result ≡ (header_in layout bytes.now).count }
{
    match layout {
        Layout::Plain => from_two(bytes_at(bytes, 0)),
        Layout::Strided => from_two(bytes_at(bytes, 12)),
    }
}

#[tactic(auto, unfolding(crate::specs::Layout::header_in))]
fn size_in(layout: Layout, bytes: &[u8]) -> u16
    requires { header_size layout ≤ length bytes.now }
    ensures { result ≡ (header_in layout bytes.now).size }
{
    match layout {
        Layout::Plain => RECORD_SIZE as u16,
        Layout::Strided => from_two(bytes_at(bytes, 14)),
    }
}

// The header at the start of some bytes, or nothing if they end before it does.
#[tactic(auto, unfolding(crate::specs::Layout::header_in))]
pub fn read_header(layout: Layout, bytes: &[u8]) -> Option<Header>
    ensures { ReadsHeader layout bytes.now result }
{
    if bytes.len() < header_size(layout) {
        return None;
    }
    Some(Header {
        count: count_in(layout, bytes),
        shop: from_two(bytes_at(bytes, 2)),
        table: from_four(bytes_at(bytes, 4)),
        length: from_four(bytes_at(bytes, 8)),
        size: size_in(layout, bytes),
    })
}

// The record at the start of some bytes, but for its stride, which is the same in both layouts.
#[tactic(auto, unfolding(crate::specs::HowStored::frame_in))]
fn frame_in(bytes: &[u8]) -> FrameRecord
    requires { record_size Plain ≤ length bytes.now }
    ensures { result ≡ frame_in bytes.now }
{
    FrameRecord {
        offset: from_four(bytes_at(bytes, 0)),
        width: from_two(bytes_at(bytes, 4)),
        height: from_two(bytes_at(bytes, 6)),
        kind: bytes[8],
        bits: bytes[9],
        copies: from_two(bytes_at(bytes, 10)),
        order: from_four(bytes_at(bytes, 12)),
    }
}

// The stride of that record: where the layout has none, rows have no gaps.
fn stride_in(layout: Layout, bytes: &[u8], frame: FrameRecord) -> u32
    requires { record_size layout ≤ length bytes.now }
    ensures { result ≡ stride_in layout bytes.now frame }
{
    match layout {
        Layout::Plain => row_bytes(frame) as u32,
        Layout::Strided => from_four(bytes_at(bytes, 16)),
    }
}

// The record at the start of some bytes.
#[tactic(auto, unfolding(crate::specs::HowStored::frame_in, crate::specs::Layout::record_in))]
fn record_in(layout: Layout, bytes: &[u8]) -> StridedRecord
    requires { record_size layout ≤ length bytes.now }
    ensures { result ≡ record_in layout bytes.now }
{
    let frame = frame_in(bytes);
    let stride = stride_in(layout, bytes, frame);
    StridedRecord { frame, stride }
}

// The record at a place of some bytes, or nothing if they end before it does.
pub fn read_record(layout: Layout, bytes: &[u8], at: usize) -> Option<StridedRecord>
    ensures { ReadsRecord layout bytes.now at result }
{
    let record = bytes.get(at..)?;
    if record.len() < record_size(layout) {
        return None;
    }
    Some(record_in(layout, record))
}

// ---- as bytes

// The bytes of a header. A plain one is the first 12; behind them stand the numbers that it does not say.
pub fn header_bytes(layout: Layout, header: Header) -> [u8; STRIDED_HEADER_SIZE]
    ensures { result ≡ long_header layout header }
{
    let mut bytes = [0; STRIDED_HEADER_SIZE];
    bytes[..2].copy_from_slice(&two_bytes(first_number(layout, header.count)));
    bytes[2..4].copy_from_slice(&two_bytes(header.shop));
    bytes[4..8].copy_from_slice(&four_bytes(header.table));
    bytes[8..12].copy_from_slice(&four_bytes(header.length));
    bytes[12..14].copy_from_slice(&two_bytes(header.count));
    bytes[14..].copy_from_slice(&two_bytes(header.size));
    bytes
}

// The bytes of a plain record.
pub fn record_bytes(frame: FrameRecord) -> [u8; RECORD_SIZE]
    ensures { result ≡ record_bytes Plain (packed frame) }
{
    let mut bytes = [0; RECORD_SIZE];
    bytes[..4].copy_from_slice(&four_bytes(frame.offset));
    bytes[4..6].copy_from_slice(&two_bytes(frame.width));
    bytes[6..8].copy_from_slice(&two_bytes(frame.height));
    bytes[8] = frame.kind;
    bytes[9] = frame.bits;
    bytes[10..12].copy_from_slice(&two_bytes(frame.copies));
    bytes[12..].copy_from_slice(&four_bytes(frame.order));
    bytes
}

// The bytes of a strided record: those of a plain one, and the stride.
pub fn strided_bytes(strided: StridedRecord) -> [u8; STRIDED_RECORD_SIZE]
    ensures { result ≡ record_bytes Strided strided }
{
    let mut bytes = [0; STRIDED_RECORD_SIZE];
    bytes[..RECORD_SIZE].copy_from_slice(&record_bytes(strided.frame));
    bytes[RECORD_SIZE..].copy_from_slice(&four_bytes(strided.stride));
    bytes
}

// ---- the bytes of a frame's pixels

// A row's own bytes.
pub fn row_bytes(frame: FrameRecord) -> usize
    ensures { result ≡ row_bytes frame }
{
    frame.width as usize * pixel_size(frame.bits != 8)
}

// The bytes of all rows, without gaps.
pub fn pixel_bytes(frame: FrameRecord) -> usize
    ensures { result ≡ pixel_bytes frame }
{
    frame.height as usize * row_bytes(frame)
}

// The bytes from the start of the first row to the end of the last, gaps included.
pub fn span_bytes(strided: StridedRecord) -> usize
    ensures { result ≡ span_bytes strided }
{
    let height = strided.frame.height as usize;
    height.saturating_sub(1) * strided.stride as usize + row_bytes(strided.frame)
}

// Is there a gap between two rows?
fn has_gaps(strided: StridedRecord) -> bool
    ensures { result ≡ has_gaps strided }
{
    1 < strided.frame.height && row_bytes(strided.frame) < strided.stride as usize
}

// A record of rows without gaps.
pub fn packed(frame: FrameRecord) -> StridedRecord
    ensures { result ≡ packed frame }
{
    StridedRecord {
        frame,
        stride: row_bytes(frame) as u32,
    }
}

// ---- how many frames there may be, and what a record may say

// Are these more frames than a spool has?
pub fn too_many_frames(count: usize) -> bool
    ensures { result ≡ ltb frame_limit count }
{
    FRAME_LIMIT < count
}

// Does e-sRGB, or luma and chroma, have this many bits?
fn is_deep(bits: u8) -> bool
    ensures { result ≡ offered bits }
{
    Depth::try_from(bits as u32).is_ok()
}

// How a frame's colours are coded. A record has the number itself, since a file and a caller in C may say any.
enum Kind {
    Srgb = 1,
    Esrgb = 2,
    LumaChroma = 3,
    Esycc = 4,
    Sycc = 5,
}

impl TryFrom<u8> for Kind {
    type Error = Refusal;

    ghost try_from_gives = { IsKind };

    fn try_from(number: u8) -> Result<Kind, Refusal> {
        match number {
            1 => Ok(Kind::Srgb),
            2 => Ok(Kind::Esrgb),
            3 => Ok(Kind::LumaChroma),
            4 => Ok(Kind::Esycc),
            5 => Ok(Kind::Sycc),
            _ => Err(Refusal::UnknownKind),
        }
    }
}

// Are kind and bits a pair that a picture has? The one list of kinds with their bits.
fn is_pair(kind: u8, bits: u8) -> bool
    ensures { result ≡ is_pair kind bits }
{
    match Kind::try_from(kind) {
        Ok(Kind::Srgb | Kind::Sycc) => bits == 8,
        Ok(Kind::Esrgb | Kind::LumaChroma | Kind::Esycc) => is_deep(bits),
        Err(_) => false,
    }
}

// Is this a width or height that no frame has?
fn bad_side(side: u16) -> bool
    ensures { result ≡ bad_side side }
{
    side == 0 || SIDE_LIMIT < side
}

// Checks a record's kind, bits, width and height.
#[tactic(auto, unfolding(crate::specs::Faults::record_fault))]
pub fn check_record(frame: FrameRecord) -> Result<(), Refusal>
    ensures { verdict result ≡ record_fault frame }
{
    if !is_pair(frame.kind, frame.bits) {
        return Err(Refusal::UnknownKind);
    }
    if bad_side(frame.width) || bad_side(frame.height) {
        return Err(Refusal::WrongSize);
    }
    Ok(())
}

// Checks a record's stride, where gaps between rows are taken or not.
#[tactic(auto, unfolding(crate::specs::Faults::stride_fault))]
pub fn check_stride(strided: StridedRecord, gaps_taken: bool) -> Result<(), Refusal>
    ensures { verdict result ≡ stride_fault gaps_taken strided }
{
    if (strided.stride as usize) < row_bytes(strided.frame) {
        return Err(Refusal::WrongStride);
    }
    if !gaps_taken && has_gaps(strided) {
        return Err(Refusal::WrongStride);
    }
    Ok(())
}
