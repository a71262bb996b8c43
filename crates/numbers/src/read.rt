// An entry read as a number: the unsigned one first, and by that the two other forms.
ghost use Rattle.std.specs.Prelude.{◌≡◌, ◌<◌, ◌≤◌, ◌^◌, negsuc};
ghost use Rattle.fst.specs.Refusal.{refused, given, refusal_number, told};
ghost use Rattle.signal.specs.Decode.{codes_at};
ghost use Rattle.signal.specs.Parts.{Levels};
ghost use Rattle.numbers.specs.Number.{unsigned, signed, decimal, read_number};
ghost use Rattle.numbers.specs.Parts.{refused_levels, binary_of, signed_by, decimal_by};

use crate::bits::{bits_in, ones};
use fst::Refusal;
use signal::packed::Packed;
use signal::read::Record;
use value::States;

// ---- unsigned

// A refusal that 10 comes before. It is lent no struct, which would be stored for it before it is known whether it is called.
#[tactic(auto, unfolding(fst::specs::Refusal::tried))]
#[cold]
#[inline(never)]
fn refused_levels(width: u32, states: States, bytes: &[u8], refusal: Refusal) -> Refusal
    requires { Levels width states bytes.now }
    ensures { refused (refusal_number result) ≡ refused_levels (codes_at width states bytes.now) refusal }
{
    let levels = Packed {
        width,
        states,
        bytes,
    };
    if levels.has_bad_code() {
        Refusal::BadCode
    } else {
        refusal
    }
}

// The number of levels, or 10, 16 or 17. Levels that are all 0 and 1 have no bad code.
#[tactic(auto, using(crate::proofs::Replies::binary_coded), unfolding(crate::specs::Parts::binary_of, crate::specs::Parts::bits_of_levels, fst::specs::Refusal::tried))]
#[inline(always)]
fn binary_of(levels: &Packed) -> Result<u64, Refusal>
    requires { 1 ≤ levels.now.width }
    ensures { told result ≡ binary_of levels.now.width (codes_at levels.now.width levels.now.states levels.now.bytes.now) }
{
    let Packed {
        width,
        states,
        bytes,
    } = *levels;
    if 64 < width {
        return Err(refused_levels(width, states, bytes, Refusal::WrongWidth));
    }
    match bits_in(states, width, bytes) {
        Some(number) => Ok(number),
        None => Err(refused_levels(width, states, bytes, Refusal::NotBinary)),
    }
}

// An unsigned number, or a refusal.
#[tactic(auto, using(crate::proofs::Replies::wide), unfolding(crate::specs::Number::read_number, signal::specs::Parts::vector_in, fst::specs::Refusal::tried))]
#[inline(always)]
pub fn read_unsigned(lent: &Record, entry: u32) -> Result<u64, Refusal>
    ensures { told result ≡ read_number unsigned lent.now.description lent.now.bytes.now lent.now.byte_start entry }
{
    let vector = lent.vector_at(entry)?;
    let levels = vector.levels()?;
    binary_of(&levels)
}

// ---- signed

// -1 - m.
pub fn below_zero(m: u64) -> i64
    requires { m < 2 ^ 63 }
    ensures { result ≡ negsuc m }
{
    -1 - (m as i64)
}

// An unsigned number of so many bits as the signed one of the same bits.
fn signed_of(width: u32, number: u64) -> i64
    requires { (1 ≤ width) × (width ≤ 64) × (number < 2 ^ width) }
    ensures { result ≡ signed_by width number }
{
    if number >> (width - 1) == 0 {
        return number as i64;
    }
    below_zero(ones(width) - number)
}

#[tactic(auto, using(crate::proofs::Replies::signed_from_lem, crate::proofs::Replies::sized))]
pub fn read_signed(lent: &Record, entry: u32) -> Result<i64, Refusal>
    ensures { told result ≡ read_number signed lent.now.description lent.now.bytes.now lent.now.byte_start entry }
{
    let number = read_unsigned(lent, entry)?;
    Ok(signed_of(lent.description.encoding.width(), number))
}

// ---- packed decimal

// The number of so many digits of four bits each, or 18.
#[tactic(auto, using(crate::proofs::Forms::digit_at, crate::proofs::Forms::digit_high, crate::proofs::Forms::read_none, crate::proofs::Forms::read_fits, crate::proofs::Forms::read_more, crate::proofs::Forms::read_all))]
fn decimal_of(count: u32, number: u64) -> Result<u64, Refusal>
    requires { count ≤ 16 }
    ensures { told result ≡ decimal_by count number }
{
    let mut working: u64 = 0;
    for i in 0..count {
        let digit = (number >> (4 * (count - 1 - i))) & 15;
        if 9 < digit {
            return Err(Refusal::NotDecimal);
        }
        working = 10 * working + digit;
    }
    Ok(working)
}

// 17 comes behind a width that is no multiple of 4, and every other refusal before it.
#[tactic(auto, using(crate::proofs::Replies::decimal_from_lem, crate::proofs::Replies::sized, crate::proofs::Replies::not_other), unfolding(fst::specs::Refusal::tried))]
pub fn read_decimal(lent: &Record, entry: u32) -> Result<u64, Refusal>
    ensures { told result ≡ read_number decimal lent.now.description lent.now.bytes.now lent.now.byte_start entry }
{
    let width = lent.description.encoding.width();
    let answer = read_unsigned(lent, entry);
    if width % 4 != 0 {
        return match answer {
            Ok(_) | Err(Refusal::NotBinary) => Err(Refusal::WrongWidth),
            Err(refusal) => Err(refusal),
        };
    }
    let number = answer?;
    decimal_of(width / 4, number)
}
