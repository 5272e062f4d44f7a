// Opening a spool file of either layout, finding a frame in it, and the rows of a frame (rules 7.5, 7.6 and
// 7.9). It promises the refusals in their order for any bytes at all, every field of what it reads, and where
// in the lent file a frame's pixels and its rows lie; it asks nothing of a caller.
#![tactic(auto)]

ghost use Rattle.std.specs.Prelude.{◌≡◌};
ghost use Rattle.refusal.specs.Answers.{verdict};
ghost use Rattle.spool.specs.Open.{header_fault, open_said, open_says};
ghost use Rattle.spool.specs.Find.{pixels_outside, frame_says, find_said, says_of, find_says, IsPixels};
ghost use Rattle.spool.specs.Rows.{row_extent, IsRow};

use records::{
    Header, Layout, StridedRecord, check_record, check_stride, header_size, layout_of, read_header,
    read_record, record_size, row_bytes, span_bytes, too_many_frames,
};
use refusal::Refusal;

// What an open spool holds.
#[derive(Clone, Copy)]
pub struct Contents {
    pub count: u16,
    pub shop: u16,
    pub table: u32,
}

// Checks the header of a file with so many bytes.
#[tactic(auto, unfolding(crate::specs::Open::header_fault))]
fn check_header(layout: Layout, header: Header, size: usize) -> Result<(), Refusal>
    ensures { verdict result ≡ header_fault layout header size }
{
    if header.length as usize != size {
        return Err(Refusal::WrongFileLength);
    }
    let record_size = record_size(layout);
    if header.size as usize != record_size {
        return Err(Refusal::WrongRecordSize);
    }
    let count = header.count as usize;
    if too_many_frames(count) {
        return Err(Refusal::TooManyFrames);
    }
    let table = header.table as usize;
    if table < header_size(layout) || size < table + record_size * count {
        return Err(Refusal::TableOutside);
    }
    Ok(())
}

// Opens a spool.
#[tactic(auto, unfolding(crate::specs::Open::open_fault))]
pub fn open(file: &[u8]) -> Result<Contents, Refusal>
    ensures { open_said result ≡ open_says file.now }
{
    let layout = layout_of(file);
    let header = read_header(layout, file).ok_or(Refusal::TooShort)?;
    check_header(layout, header, file.len())?;
    Ok(Contents {
        count: header.count,
        shop: header.shop,
        table: header.table,
    })
}

// What finding a frame gives: its record, or why there is none.
pub type Found = Result<StridedRecord, Refusal>;

// Do a record's pixels reach into the header or past the file?
#[tactic(auto, unfolding(crate::specs::Find::pixels_outside))]
fn pixels_outside(file: &[u8], strided: StridedRecord) -> bool
    ensures { result ≡ pixels_outside file.now strided }
{
    let start = strided.frame.offset as usize;
    start < header_size(layout_of(file)) || file.len() < start + span_bytes(strided)
}

// The frame of a record, if the record and its pixels are sound, where gaps between rows are taken or not.
#[tactic(auto, unfolding(crate::specs::Find::frame_fault))]
fn frame_of(file: &[u8], strided: StridedRecord, gaps_taken: bool) -> Found
    ensures { find_said result ≡ frame_says gaps_taken file.now strided }
{
    check_record(strided.frame)?;
    check_stride(strided, gaps_taken)?;
    if pixels_outside(file, strided) {
        return Err(Refusal::PixelsOutside);
    }
    Ok(strided)
}

// ---- finding
// A file and a number are two parameters throughout: C lends them apart.

// Finds a frame, where gaps between its rows are taken or not: its record, or why there is none. The
// table of an open spool is inside the file, so that no record below the count is short.
#[tactic(auto, using(crate::proofs::FindFaults::record_inside), unfolding(crate::specs::Find::find_fault, crate::specs::Find::record_at))]
pub fn frame_at(file: &[u8], number: usize, gaps_taken: bool) -> Found
    ensures { find_said result ≡ says_of gaps_taken file.now number }
{
    let contents = open(file)?;
    if contents.count as usize <= number {
        return Err(Refusal::NoSuchFrame);
    }
    let layout = layout_of(file);
    let at = contents.table as usize + record_size(layout) * number;
    let strided = read_record(layout, file, at).ok_or(Refusal::TableOutside)?;
    frame_of(file, strided, gaps_taken)
}

// Finds a frame.
pub fn find(file: &[u8], number: usize) -> Found
    ensures { find_said result ≡ find_says file.now number }
{
    frame_at(file, number, true)
}

// A frame's pixels, where they lie in the lent file, gaps included. For a frame that is refused, that is
// the empty part at the file's start, and not None, as `IsPixels` has it.
#[tactic(auto, using(crate::proofs::FindFaults::pixels_inside))]
pub fn pixels(file: &[u8], number: usize) -> &[u8]
    ensures { IsPixels file.entry number result }
{
    let Ok(strided) = find(file, number) else {
        return &file[0..0];
    };
    let start = strided.frame.offset as usize;
    let end = start + span_bytes(strided);
    &file[start..end]
}

// A part of a file: where it starts, and how many bytes it has. The C interface says these two, so it is no Range.
#[derive(Clone, Copy)]
pub struct Extent {
    pub start: usize,
    pub length: usize,
}

// Where a row of a record lies. A row that the frame does not have is empty, at the file's start.
pub fn row_extent(strided: StridedRecord, row: usize) -> Extent
    ensures { result ≡ row_extent strided row }
{
    if strided.frame.height as usize <= row {
        return Extent {
            start: 0,
            length: 0,
        };
    }
    Extent {
        start: strided.frame.offset as usize + row * strided.stride as usize,
        length: row_bytes(strided.frame),
    }
}

// A row of a frame, where it lies in the lent file. One that is not there is the empty part at the
// file's start, and not None, as `IsRow` has it.
#[tactic(auto, using(crate::proofs::Rows::found_row_inside))]
pub fn row(file: &[u8], number: usize, row: usize) -> &[u8]
    ensures { IsRow file.entry number row result }
{
    let Ok(strided) = find(file, number) else {
        return &file[0..0];
    };
    let extent = row_extent(strided, row);
    let start = extent.start;
    let end = start + extent.length;
    &file[start..end]
}
