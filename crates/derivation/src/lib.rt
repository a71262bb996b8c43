// Which wires of which signals make a derived one, after the first half of wellen's src/signal/transform.rs.
#![tactic(auto)]

use fst::Refusal;

pub mod add;
pub mod piece;

// One piece of a derivation: `width` wires of input number `signal` from bit `lsb` up.
#[derive(Clone, Copy, PartialEq, Eq)]
pub struct Extract {
    pub signal: u16,
    pub width: u16,
    pub lsb: u32,
}

// A signal that is derived from others by slices and joins. The first piece is the highest. What lies past a count is free.
#[derive(Clone, Copy)]
pub struct DerivedBitVecSignal {
    pub width: u32,
    pub input_count: u32,
    pub inputs: [u32; 8],
    pub piece_count: u32,
    pub bits: [u64; 64],
}

// The answer of Add a piece: the next derivation, after a refusal the unchanged one.
#[derive(Clone, Copy)]
pub struct Joined {
    pub verdict: Result<(), Refusal>,
    pub next: DerivedBitVecSignal,
}

// Where a piece joins a derivation: Left is the most significant side.
#[derive(Clone, Copy, PartialEq, Eq)]
pub enum Side {
    Left,
    Right,
}
