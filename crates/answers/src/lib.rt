// What a call answers: Ok, or the one refusal whose condition holds and whose earlier checks passed.
#![tactic(auto)]

pub mod text;

ghost use Rattle.std.specs.Prelude.{◌≡◌};
ghost use Rattle.answers.specs.Refusals.{number, entry, answer};

// The maximum length of a message, in bytes and in bits.
pub const MAX_MESSAGE_BYTES: usize = 16777215;

pub const MAX_MESSAGE_BITS: u32 = 134217720;

// Why a call was refused. The two of an entry name it.
#[derive(Clone, Copy, PartialEq, Eq)]
pub enum Refusal {
    UnknownVariant,
    Malformed,
    WrongStage,
    TooLong,
    OutputTooShort,
    BadImage,
    OutOfRange,
    NoBlock,
    BadList,
    Misordered(u16),
    PastEnd(u16),
    BadManifest,
    BadRecord,
    NotRising,
    BadBitNumber,
    InsideByte,
    NotSponge,
}

impl Refusal {
    // Its number, from 1 on.
    pub fn number(self) -> u8
        ensures { result ≡ number self }
    {
        match self {
            Refusal::UnknownVariant => 1,
            Refusal::Malformed => 2,
            Refusal::WrongStage => 3,
            Refusal::TooLong => 4,
            Refusal::OutputTooShort => 5,
            Refusal::BadImage => 6,
            Refusal::OutOfRange => 7,
            Refusal::NoBlock => 8,
            Refusal::BadList => 9,
            Refusal::Misordered(_) => 10,
            Refusal::PastEnd(_) => 11,
            Refusal::BadManifest => 12,
            Refusal::BadRecord => 13,
            Refusal::NotRising => 14,
            Refusal::BadBitNumber => 15,
            Refusal::InsideByte => 16,
            Refusal::NotSponge => 17,
        }
    }

    // The entry that it names, 0 if it names none.
    pub fn entry(self) -> u16
        ensures { result ≡ entry self }
    {
        match self {
            Refusal::Misordered(k) | Refusal::PastEnd(k) => k,
            _ => 0,
        }
    }
}

// The answer as one number: 0 for Ok, else the number of the refusal in the low byte, and above it the entry that it
// names.
pub fn answer_of(s: Result<(), Refusal>) -> u32
    ensures { result ≡ answer s }
{
    match s {
        Ok(()) => 0,
        Err(r) => u32::from(r.number()) + 256 * u32::from(r.entry()),
    }
}
