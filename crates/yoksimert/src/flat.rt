// Numbers into descriptions and answers into numbers.
ghost use Rattle.std.specs.Prelude.{◌≡◌};
ghost use Rattle.fst.specs.Refusal.{refusal_number, told};
ghost use Rattle.yoksimert.specs.Flat.{decoded, encoded, no_description, no_entry, flat_made, flat_equal, flat_number, flat_signed, nowhere, placed, flat_offset};

use crate::{FlatDescription, FlatEntry, FlatEqual, FlatMade, FlatNumber, FlatOffset, FlatSigned};
use fst::{Description, Encoding, Refusal};
use offset::DataOffset;
use signal::Kind;
use value::States;

// ---- descriptions

impl TryFrom<FlatDescription> for Description {
    type Error = Refusal;

    ghost try_from_gives = { λ f d. d ≡ decoded f };

    #[tactic(auto, using(std::proofs::lemmas::Bool::Decides::nat_tests, std::proofs::lemmas::Grind::common_steps), unfolding(crate::specs::Flat::decoded))]
    // An arm for each set: the compiler then sees that the numbers of both sides are the same.
    fn try_from(flat: FlatDescription) -> Result<Description, Refusal> {
        let width = flat.width;
        let encoding = match (flat.kind, flat.set) {
            (2, 0) => Encoding::BitVector {
                width,
                max_states: States::Two,
            },
            (2, 1) => Encoding::BitVector {
                width,
                max_states: States::Four,
            },
            (2, 2) => Encoding::BitVector {
                width,
                max_states: States::Nine,
            },
            (0, 0) if width == 0 => Encoding::Event,
            (1, 0) if width == 0 => Encoding::Real,
            _ => return Err(Refusal::BadRecord),
        };
        Ok(Description::new(encoding, flat.count))
    }
}

impl From<Description> for FlatDescription {
    ghost from_gives = { λ d f. f ≡ encoded d };

    fn from(description: Description) -> FlatDescription {
        let encoding = description.encoding;
        FlatDescription {
            kind: Kind::from(encoding) as u32,
            width: encoding.width(),
            set: u32::from(encoding.largest().mark()),
            count: description.count,
        }
    }
}

fn no_description() -> FlatDescription
    ensures { result ≡ no_description }
{
    FlatDescription {
        kind: 3,
        width: 0,
        set: 0,
        count: 0,
    }
}

// ---- answers

impl From<Result<Description, Refusal>> for FlatMade {
    ghost from_gives = { λ made f. f ≡ flat_made (told made) };

    fn from(made: Result<Description, Refusal>) -> FlatMade {
        match made {
            Ok(description) => FlatMade {
                number: 0,
                description: FlatDescription::from(description),
            },
            Err(refusal) => FlatMade {
                number: u32::from(refusal.number()),
                description: no_description(),
            },
        }
    }
}

// The number of a refusal of what is read. By a function apart, so that a call that is not refused has no work with it.
#[cold]
#[inline(never)]
fn told_apart(refusal: Refusal) -> u32
    ensures { result ≡ refusal_number refusal }
{
    u32::from(refusal.number())
}

impl From<Refusal> for FlatEntry {
    ghost use Rattle.fst.specs.Refusal.{refusal_number};

    ghost from_gives = { λ refusal f. f ≡ no_entry (refusal_number refusal) };

    fn from(refusal: Refusal) -> FlatEntry {
        FlatEntry {
            number: told_apart(refusal),
            kind: 0,
            set: 0,
            start: 0,
            length: 0,
        }
    }
}

impl From<Result<bool, Refusal>> for FlatEqual {
    ghost from_gives = { λ answer f. f ≡ flat_equal (told answer) };

    fn from(answer: Result<bool, Refusal>) -> FlatEqual {
        match answer {
            Ok(equal) => FlatEqual { number: 0, equal },
            Err(refusal) => FlatEqual {
                number: u32::from(refusal.number()),
                equal: false,
            },
        }
    }
}

impl From<Result<u64, Refusal>> for FlatNumber {
    ghost from_gives = { λ answer f. f ≡ flat_number (told answer) };

    fn from(answer: Result<u64, Refusal>) -> FlatNumber {
        match answer {
            Ok(value) => FlatNumber { number: 0, value },
            Err(refusal) => FlatNumber {
                number: told_apart(refusal),
                value: 0,
            },
        }
    }
}

impl From<Result<i64, Refusal>> for FlatSigned {
    ghost from_gives = { λ answer f. f ≡ flat_signed (told answer) };

    fn from(answer: Result<i64, Refusal>) -> FlatSigned {
        match answer {
            Ok(value) => FlatSigned { number: 0, value },
            Err(refusal) => FlatSigned {
                number: told_apart(refusal),
                value: 0,
            },
        }
    }
}

fn nowhere(number: u32) -> FlatOffset
    ensures { result ≡ nowhere number }
{
    FlatOffset {
        number,
        found: false,
        start: 0,
        elements: 0,
        time_match: false,
        has_next: false,
        next_index: 0,
    }
}

impl From<DataOffset> for FlatOffset {
    ghost from_gives = { λ offset f. f ≡ placed offset };

    fn from(offset: DataOffset) -> FlatOffset {
        FlatOffset {
            number: 0,
            found: true,
            start: offset.start,
            elements: offset.elements,
            time_match: offset.time_match,
            has_next: offset.next_index.is_some(),
            next_index: offset.next_index.unwrap_or(0),
        }
    }
}

impl From<Result<Option<DataOffset>, Refusal>> for FlatOffset {
    ghost from_gives = { λ answer f. f ≡ flat_offset (told answer) };

    fn from(answer: Result<Option<DataOffset>, Refusal>) -> FlatOffset {
        match answer {
            Ok(Some(offset)) => FlatOffset::from(offset),
            Ok(None) => nowhere(0),
            Err(refusal) => nowhere(u32::from(refusal.number())),
        }
    }
}
