// Records and their writer, after wellen's src/fst.rs.
#![tactic(auto)]

ghost use Rattle.std.specs.Prelude.{◌≡◌};
ghost use Rattle.fst.specs.Refusal.{refusal_number, number_of};
ghost use Rattle.fst.specs.Record.{size_of, width_of, largest_in, has_no_text, described};

use layout::entry::entry_size;
use value::States;

pub mod change;
pub mod real;
pub mod record;

// Why a call was refused, by the numbers of documents 01 and 02.
#[derive(Clone, Copy, PartialEq, Eq)]
pub enum Refusal {
    WidthTooLarge = 1,
    BadRecord,
    WrongKind,
    WrongLength,
    ForeignCharacter,
    IndexBelowLast,
    NoRoom,
    NoSuchEntry,
    BadMark,
    BadCode,
    IndexFalls,
    BadRange,
    DerivationFull,
    BadDerivation,
    LateInput,
    WrongWidth,
    NotBinary,
    NotDecimal,
}

impl Refusal {
    pub fn number(self) -> u8
        ensures { result ≡ refusal_number self }
    {
        self as u8
    }
}

// 0 for an accepted call.
pub fn verdict_number(verdict: Result<(), Refusal>) -> u8
    ensures { result ≡ number_of verdict }
{
    match verdict {
        Ok(()) => 0,
        Err(refusal) => refusal.number(),
    }
}

#[derive(Clone, Copy, PartialEq, Eq)]
pub enum Encoding {
    Event,
    Real,
    BitVector { width: u32, max_states: States },
}

impl Encoding {
    // The bytes of an entry.
    pub fn size(self) -> usize
        ensures { result ≡ size_of self }
    {
        match self {
            Encoding::Event => 0,
            Encoding::Real => 8,
            Encoding::BitVector { width, max_states } => entry_size(max_states, width),
        }
    }

    pub fn width(self) -> u32
        ensures { result ≡ width_of self }
    {
        match self {
            Encoding::Event | Encoding::Real => 0,
            Encoding::BitVector { width, .. } => width,
        }
    }

    pub fn largest(self) -> States
        ensures { result ≡ largest_in self }
    {
        match self {
            Encoding::Event | Encoding::Real => States::Two,
            Encoding::BitVector { max_states, .. } => max_states,
        }
    }

    #[tactic(auto, unfolding(crate::specs::Record::has_no_text))]
    pub fn has_no_text(self) -> bool
        ensures { result ≡ has_no_text self }
    {
        matches!(self, Encoding::Event | Encoding::Real)
    }
}

// What is known of a record besides its bytes and time indices, which the caller lends.
#[derive(Clone, Copy, PartialEq, Eq)]
pub struct Description {
    pub encoding: Encoding,
    pub count: u32,
}

impl Description {
    pub fn new(encoding: Encoding, count: u32) -> Description
        ensures { result ≡ described encoding count }
    {
        Description { encoding, count }
    }
}

// The answer of Add a change: the next description, after a refusal the unchanged one.
#[derive(Clone, Copy, PartialEq, Eq)]
pub struct Added {
    pub verdict: Result<(), Refusal>,
    pub next: Description,
}
