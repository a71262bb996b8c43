// How turns pack the levels of each set: by the table of codes to one byte, and many characters at a time.
ghost use Rattle.std.specs.Prelude.{◌≡◌, ◌<◌};
ghost use Rattle.std.proofs.Common.{rules};
ghost use Rattle.value.specs.declared.States.TheVariants.{Two, Four, Nine};
ghost use Rattle.value.specs.Digits.{Below};
ghost use Rattle.value.specs.Level.{fold, fold_all, code_of, codes_of};
ghost use Rattle.wavemem.specs.Packed.{packed_with};

use crate::short::{four_of_word, two_of_word};
use crate::table::Table;
use crate::turns::Packs;
use crate::word;
use value::States;

impl Packs<4, 1> for Table {
    ghost set = { Four };

    ghost fills = { Prim.search rules };

    fn pack(&self, chars: &[u8; 4]) -> [u8; 1] {
        [self.number(States::Four, chars) as u8]
    }
}

impl Packs<2, 1> for Table {
    ghost set = { Nine };

    ghost fills = { Prim.search rules };

    fn pack(&self, chars: &[u8; 2]) -> [u8; 1] {
        [self.number(States::Nine, chars) as u8]
    }
}

// Eight characters 0 and 1 to a byte.
#[derive(Clone, Copy)]
pub struct TwoByWords;

impl Packs<8, 1> for TwoByWords {
    ghost set = { Two };

    ghost fills = { Prim.search rules };

    #[tactic(auto, using(crate::proofs::Words::word_bytes, value::proofs::Digits::below_all))]
    fn pack(&self, chars: &[u8; 8]) -> [u8; 1] {
        [two_of_word(word(chars)) as u8]
    }
}

// Eight characters of the set Four to two bytes.
#[derive(Clone, Copy)]
pub struct FourByWords;

impl Packs<8, 2> for FourByWords {
    ghost set = { Four };

    ghost fills = { Prim.search rules };

    #[tactic(auto, using(crate::proofs::Words::word_bytes, value::proofs::Digits::below_all, crate::proofs::Blocks::word_small, crate::proofs::Blocks::two_bytes))]
    fn pack(&self, chars: &[u8; 8]) -> [u8; 2] {
        (four_of_word(word(chars)) as u16).to_be_bytes()
    }
}

// 32 characters of the set Nine to 16 bytes.
#[derive(Clone, Copy)]
pub struct NineByBlocks;

impl Packs<32, 16> for NineByBlocks {
    ghost set = { Nine };

    ghost fills = { Prim.search rules };

    #[inline(always)]
    fn pack(&self, chars: &[u8; 32]) -> [u8; 16] {
        join_pairs(codes_of_block(chars))
    }
}

// The code of a character that is not foreign, each of its four bits by bits of the character: no load and no jump, so that a loop over
// it is compiled to wide instructions.
#[tactic(auto, using(crate::proofs::Blocks::by_bits_lem))]
fn code_by_bits(c: u8) -> u8
    ensures { code_of (fold c) < 9 → result ≡ code_of (fold c) }
{
    let b1 = c >> 1;
    let b2 = c >> 2;
    let b3 = c >> 3;
    let b4 = c >> 4;
    let b6 = c >> 6;
    let c0 = ((c ^ b1) ^ (b2 & b3)) & 1;
    let c1 = (((b3 & b6) & (b4 | b2)) | b1) & 1;
    let c2 = (b6 & (b4 ^ b3)) & 1;
    let c3 = (b3 & c) & 1;
    (c0 | (c1 << 1)) | ((c2 << 2) | (c3 << 3))
}

// The codes of 32 characters.
#[tactic(auto, using(value::proofs::Slices::overlay_nil, crate::proofs::Blocks::code_filled, crate::proofs::Blocks::all_filled))]
fn codes_of_block(chars: &[u8; 32]) -> [u8; 32]
    requires { Below 9 (codes_of (fold_all chars.now)) }
    ensures { result ≡ codes_of (fold_all chars.now) }
{
    let mut codes = [0u8; 32];
    for (i, c) in chars.iter().enumerate() {
        codes[i] = code_by_bits(*c);
    }
    codes
}

// The bytes of 32 levels of the set Nine.
#[tactic(auto, using(crate::proofs::Blocks::pairs_none, crate::proofs::Blocks::pair_stored, crate::proofs::Blocks::pairs_all, value::proofs::Slices::overlay_nil))]
fn join_pairs(codes: [u8; 32]) -> [u8; 16]
    requires { Below 16 codes }
    ensures { result ≡ packed_with 4 0 codes }
{
    let mut joined = [0u8; 16];
    for k in 0..16 {
        joined[k] = (codes[2 * k] << 4) | codes[2 * k + 1];
    }
    joined
}
