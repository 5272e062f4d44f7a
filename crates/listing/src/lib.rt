// The listing of a spool as text (rules, section 9), written into a lent buffer. It promises every byte
// of the listing for any file; it asks nothing of a caller. A buffer that is too small gets as much of
// the text as it has room for; one of LISTING_ROOM bytes gets all of it.
#![tactic(auto)]

ghost use Rattle.std.specs.Prelude.{◌≡◌, [], ◌∷◌, ◌++◌, ◌+◌, ◌≤◌, length, take};
ghost use Rattle.refusal.specs.Refusals.{number_of};
ghost use Rattle.spool.specs.Find.{finds, find_said};
ghost use Rattle.listing.specs.Text.{decimal, put_text};
ghost use Rattle.listing.specs.HowAdded.{Adds};
ghost use Rattle.listing.specs.Listing.{refused_word, fields, line, lines, listing, listing_room};

use records::{FRAME_LIMIT, StridedRecord};
use refusal::{Refusal, number};
use spool::{Found, find, open};

// The longest file that is listed.
pub const INPUT_LIMIT: usize = 65536;

// The names of the fields of a line.
const HEADING: &[u8] = b"frame order kind bits width height copies offset\n";

// The bytes of a line that has the most digits in each field.
const LINE_ROOM: usize = 52;

// A length of text that no listing exceeds.
pub const LISTING_ROOM: usize = HEADING.len() + LINE_ROOM * FRAME_LIMIT;

// A text that grows in a lent buffer: the buffer, and the place behind the text so far. What no longer fits is left
// out, a byte at a time.
#[derive(Drop)]
struct Text<'a> {
    bytes: &'a mut [u8],
    at: usize,
}

impl Text<'_> {
    // Adds one byte, if the buffer has room.
    #[tactic(auto, unfolding(crate::specs::Text::put_text))]
    fn put_byte(&mut self, byte: u8)
        ensures { Adds self.old (byte ∷ []) self.new }
    {
        if self.at < self.bytes.len() {
            self.bytes[self.at] = byte;
            self.at += 1;
        }
    }

    // Adds a text.
    fn put_text(&mut self, text: &[u8])
        ensures { Adds self.old text.now self.new }
    {
        for byte in text {
            self.put_byte(*byte);
        }
    }

    // Adds a number in decimal. `write!` would not do: of a writer's bytes it promises nothing where it answers an error.
    fn put_number(&mut self, n: usize)
        ensures { Adds self.old (decimal n) self.new }
    {
        let last = (48 + n % 10) as u8;
        if 10 <= n {
            self.put_number(n / 10);
        }
        self.put_byte(last);
    }

    // A field of a line: a number and the byte behind it.
    fn put_field(&mut self, n: usize, end: u8)
        ensures { Adds self.old (decimal n ++ (end ∷ [])) self.new }
    {
        self.put_number(n);
        self.put_byte(end);
    }

    // Numbers as the fields of a line.
    fn put_fields(&mut self, numbers: &[usize])
        ensures { Adds self.old (fields numbers.now) self.new }
    {
        for (i, n) in numbers.iter().enumerate() {
            let end = if i + 1 < numbers.len() { b' ' } else { b'\n' };
            self.put_field(*n, end);
        }
    }

    // The line of a frame that is found.
    fn put_frame(&mut self, number: usize, strided: StridedRecord)
        ensures { Adds self.old (line number (finds strided)) self.new }
    {
        let frame = strided.frame;
        let numbers = [
            number,
            frame.order as usize,
            frame.kind as usize,
            frame.bits as usize,
            frame.width as usize,
            frame.height as usize,
            frame.copies as usize,
            frame.offset as usize,
        ];
        self.put_fields(&numbers);
    }

    // The word `refused`, a refusal's number and the end of the line.
    fn put_refusal(&mut self, refusal: Refusal)
        ensures { Adds self.old (refused_word ++ fields (number_of refusal ∷ [])) self.new }
    {
        self.put_text(b"refused ");
        self.put_field(number(refusal) as usize, b'\n');
    }

    // The line of a frame, found or refused.
    fn put_line(&mut self, frame: usize, found: Found)
        ensures { Adds self.old (line frame (find_said found)) self.new }
    {
        match found {
            Ok(strided) => self.put_frame(frame, strided),
            Err(refusal) => {
                self.put_field(frame, b' ');
                self.put_refusal(refusal);
            }
        }
    }

    // The lines of the first frames of a file.
    fn put_lines(&mut self, file: &[u8], count: usize)
        ensures { Adds self.old (lines file.now count 0) self.new }
    {
        for frame in 0..count {
            self.put_line(frame, find(file, frame));
        }
    }

    // The listing of a file.
    fn put_listing(&mut self, file: &[u8])
        ensures { Adds self.old (listing file.now) self.new }
    {
        if INPUT_LIMIT < file.len() {
            return self.put_refusal(Refusal::InputTooLong);
        }
        match open(file) {
            Err(refusal) => self.put_refusal(refusal),
            Ok(contents) => {
                self.put_text(HEADING);
                self.put_lines(file, contents.count as usize);
            }
        }
    }
}

// Writes the listing of a file into the buffer, from its start, and gives the length of the text. What does
// not fit is left out.
pub fn write_listing(file: &[u8], out: &mut [u8]) -> usize
    ensures buffer { record { bytes = out.new; at = result } ≡ put_text (record { bytes = out.old; at = 0 }) (listing file.now) }
    ensures within { result ≤ length out.new }
    ensures whole { listing_room ≤ length out.old → take result out.new ≡ listing file.now }
{
    let mut text = Text { bytes: out, at: 0 };
    text.put_listing(file);
    text.at
}

// The same in a buffer that every listing fits in. The clause `room` holds the constant to the definition.
pub fn write_whole_listing(file: &[u8], text: &mut [u8; LISTING_ROOM]) -> usize
    ensures whole { take result text.new ≡ listing file.now }
    ensures buffer { record { bytes = text.new; at = result } ≡ put_text (record { bytes = text.old; at = 0 }) (listing file.now) }
    ensures within { result ≤ length text.new }
    ensures room { length text.old ≡ listing_room }
{
    write_listing(file, text)
}
