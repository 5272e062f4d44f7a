// Refusals and answers: each refusal under a name and its number, why and where an operation refuses, and
// the answer of an operation on buffers. It promises that a refusal has the number of section 8 of the rules.
#![tactic(auto)]

ghost use Rattle.std.specs.Prelude.{◌≡◌};
ghost use Rattle.refusal.specs.Refusals.{number_of};
ghost use Rattle.refusal.specs.Answers.{nowhere, somewhere};

// Why an operation refuses, in the order of the numbers: document 01's "turned away".
#[derive(Clone, Copy, Debug, PartialEq, Eq)]
pub enum Refusal {
    // A spool shorter than its header.
    TooShort = 1,
    // The length in the header is not the file's.
    WrongFileLength = 2,
    // More frames than a spool may have.
    TooManyFrames = 3,
    // The record table is not inside the file behind the header.
    TableOutside = 4,
    // No frame has this number.
    NoSuchFrame = 5,
    // Kind and bits are no pair that a picture has.
    UnknownKind = 6,
    // A width or height that no frame has.
    WrongSize = 7,
    // The pixels are not inside the file behind the header.
    PixelsOutside = 8,
    // A depth that is not offered.
    DepthNotOffered = 9,
    // The source is not whole samples.
    NotWholeSamples = 10,
    // The destination has not exactly the length needed.
    WrongDestinationLength = 11,
    // A sample above the greatest of its depth.
    SampleTooGreat = 12,
    // A chroma of code 0.
    ChromaZero = 13,
    // A spool that would be longer than its header can say.
    TotalTooLong = 14,
    // More input than the listing program takes.
    InputTooLong = 15,
    // The source is whole samples, and not whole pixels.
    NotWholePixels = 16,
    // A tint's channel that is infinite or not a number.
    NotFinite = 17,
    // A budget of 0, so that no choice of tints may be looked at.
    NoBudget = 18,
    // More pixels than a sticker has.
    TooManyPixels = 19,
    // A strided header that says another size of its records than theirs.
    WrongRecordSize = 20,
    // A stride below a row's own bytes, or gaps between rows where none are taken.
    WrongStride = 21,
    // An arrival at the printer that breaks a limit, or is one too many.
    WrongArrival = 22,
}

// The number of a refusal.
pub fn number(refusal: Refusal) -> u8
    ensures { result ≡ number_of refusal }
{
    refusal as u8
}

// Why an operation is refused, and the place of what is at fault, where that has one.
#[derive(Clone, Copy, Debug, PartialEq, Eq)]
pub struct Fault {
    pub refusal: Refusal,
    pub place: Option<usize>,
}

impl From<Refusal> for Fault {
    ghost from_gives = { λ refusal fault. fault ≡ nowhere refusal };

    fn from(refusal: Refusal) -> Fault {
        Fault {
            refusal,
            place: None,
        }
    }
}

impl Refusal {
    // The refusal of what is at a place.
    pub fn at(self, place: usize) -> Fault
        ensures { result ≡ somewhere self place }
    {
        Fault {
            refusal: self,
            place: Some(place),
        }
    }
}

// What an operation on buffers answers: the count or the length that it gives, or why it is refused.
pub type Answer = Result<usize, Fault>;
