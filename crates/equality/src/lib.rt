// Compare, after wellen's equality of signals.
#![tactic(auto)]

ghost use Rattle.std.specs.Prelude.{◌≡◌, ◌+◌, ◌<◌, false, reverse, length, get_or};
ghost use Rattle.std.specs.Float.Ieee.{eq, of_bits};
ghost use Rattle.std.specs.Float.{binary64};
ghost use Rattle.value.specs.Digits.{number};
ghost use Rattle.value.specs.Slice.{same};
ghost use Rattle.fst.specs.Refusal.{told, told_by};
ghost use Rattle.fst.specs.Record.{lent_in, is_bad};
ghost use Rattle.signal.specs.Decode.{entry_at, codes_at};
ghost use Rattle.signal.specs.Parts.{Whole};
ghost use Rattle.equality.specs.Compare.{compare_records};
ghost use Rattle.equality.specs.Pairs.{held_in, coded, same_held, pair_of};

use fst::record::{Slices, is_bad};
use fst::{Description, Encoding, Refusal};
use layout::bytes::read_block;
use signal::decode::Vector;
use signal::packed::Packed;
use signal::read::Record;

// A record in the two slices that it is lent with.
#[derive(Clone, Copy)]
pub struct Lent<'a> {
    pub description: Description,
    pub slices: Slices<'a>,
}

// The time index of an entry.
fn index_at(indices: &[u32], index_start: usize, entry: u32) -> u32
    requires { index_start + entry < length indices.now }
    ensures { result ≡ get_or indices.now (index_start + entry) 0 }
{
    indices[index_start + entry as usize]
}

impl Lent<'_> {
    // An entry of a record that is not 2.
    fn entry(&self, k: u32) -> Indexed<'_>
        requires { (is_bad self.now.description (lent_in self.now.slices) ≡ false) × (k < self.now.description.count) }
        ensures index { result.index ≡ get_or self.now.slices.indices.now (self.now.slices.index_start + k) 0 }
        ensures encoding { result.encoding ≡ self.now.description.encoding }
        ensures bytes { result.bytes.now ≡ entry_at self.now.description.encoding self.now.slices.byte_start self.now.slices.bytes.now k }
    {
        let record = Record {
            description: self.description,
            bytes: self.slices.bytes,
            byte_start: self.slices.byte_start,
        };
        Indexed {
            index: index_at(self.slices.indices, self.slices.index_start, k),
            encoding: self.description.encoding,
            bytes: record.entry_at(k),
        }
    }
}

// An entry with its time index.
#[derive(Clone, Copy)]
struct Indexed<'a> {
    index: u32,
    encoding: Encoding,
    bytes: &'a [u8],
    ghost whole: { Whole encoding bytes.now },
}

// What an entry is compared by: a real's bits, a bit vector's levels.
#[derive(Clone, Copy)]
enum Value<'a> {
    Event,
    Real(u64),
    Levels(Packed<'a>),
}

// The weight of a real's sign bit.
const SIGN: u64 = 9223372036854775808;

// The bits of an infinity. Above them, with the sign left out, are the NaNs.
const INFINITY: u64 = 9218868437227405312;

// The bits of a real from its bytes, the lowest first.
#[tactic(auto, using(crate::proofs::Comparing::le_number, value::proofs::Slices::part_all))]
fn real_bits(value: &[u8]) -> u64
    requires { length value.now ≡ 8 }
    ensures { result ≡ number 256 (reverse value.now) }
{
    u64::from_le_bytes(read_block(value, 0))
}

// Float `==` by bits: a NaN differs from everything, the zeros agree. Floats themselves are compared in the processor's mode, in which a caller
// may have the smallest ones taken for zeros.
#[tactic(auto, using(crate::proofs::Floats::first_nan, crate::proofs::Floats::second_nan, crate::proofs::Floats::equal_bits, crate::proofs::Floats::both_zeros, crate::proofs::Floats::unequal_bits))]
fn same_bits(a: u64, b: u64) -> bool
    ensures { result ≡ eq (of_bits binary64 a) (of_bits binary64 b) }
{
    if INFINITY < a % SIGN || INFINITY < b % SIGN {
        return false;
    }
    if a == b {
        return true;
    }
    a % SIGN == 0 && b % SIGN == 0
}

// Whether two slices of one length hold equal bytes. The loop runs to the end, so that it is compiled to wide instructions: the library's `==`
// makes a call, which is a quarter of a comparison of 32 levels.
#[tactic(auto, using(crate::proofs::Comparing::alike_union), unfolding(value::specs::Slice::same))]
fn equal_bytes(a: &[u8], b: &[u8]) -> bool
    requires { length a.now ≡ length b.now }
    ensures { result ≡ same a.now b.now }
{
    let mut union: u8 = 0;
    for i in 0..a.len() {
        union |= a[i] ^ b[i];
    }
    union == 0
}

// Whether levels have one text. Letters differ where codes do.
#[tactic(auto, using(crate::proofs::Comparing::apart, crate::proofs::Comparing::alike, crate::proofs::Comparing::alike_at, crate::proofs::Comparing::alike_more, crate::proofs::Comparing::alike_all, signal::proofs::Decoding::codes_length))]
fn same_levels(a: &Packed, b: &Packed) -> bool
    ensures { result ≡ same (codes_at a.now.width a.now.states a.now.bytes.now) (codes_at b.now.width b.now.states b.now.bytes.now) }
{
    if a.width != b.width {
        return false;
    }
    if a.states == b.states && equal_bytes(a.bytes, b.bytes) {
        return true;
    }
    for i in 0..a.width {
        if a.code_at(i) != b.code_at(i) {
            return false;
        }
    }
    true
}

impl<'a> Indexed<'a> {
    // Its value, or 9, or 10.
    #[tactic(auto, unfolding(crate::specs::Pairs::coded, signal::specs::Decode::has_bad_mark, signal::specs::Decode::levels_in, value::specs::Slice::any, fst::specs::Refusal::tried))]
    fn value(&self) -> Result<Value<'a>, Refusal>
        ensures { told_by held_in result ≡ coded self.now.encoding self.now.bytes.now }
    {
        match self.encoding {
            Encoding::Event => Ok(Value::Event),
            Encoding::Real => Ok(Value::Real(real_bits(self.bytes))),
            Encoding::BitVector { width, max_states } => {
                let vector = Vector {
                    width,
                    max_states,
                    bytes: self.bytes,
                };
                let levels = vector.coded_levels()?;
                Ok(Value::Levels(levels))
            }
        }
    }
}

// Values of unlike kind never agree.
#[tactic(auto, unfolding(crate::specs::Pairs::same_held))]
fn same_value(a: &Value, b: &Value) -> bool
    ensures { result ≡ same_held (held_in a.now) (held_in b.now) }
{
    match (a, b) {
        (Value::Event, Value::Event) => true,
        (Value::Real(x), Value::Real(y)) => same_bits(*x, *y),
        (Value::Levels(x), Value::Levels(y)) => same_levels(x, y),
        _ => false,
    }
}

// A pair of entries: both are tried, and only then compared.
#[tactic(auto, unfolding(crate::specs::Pairs::pair_of, crate::specs::Pairs::coded, fst::specs::Refusal::tried))]
fn compare_tried(a: &Indexed, b: &Indexed) -> Result<bool, Refusal>
    ensures { told result ≡ pair_of a.now.encoding a.now.bytes.now a.now.index b.now.encoding b.now.bytes.now b.now.index }
{
    let x = a.value()?;
    let y = b.value()?;
    Ok(a.index == b.index && same_value(&x, &y))
}

// The same. Of events and of reals there is nothing to try, and no value is made of them.
#[tactic(auto, using(crate::proofs::Comparing::events_told, crate::proofs::Comparing::reals_told, crate::proofs::Comparing::reals_apart))]
fn compare_pair(a: &Indexed, b: &Indexed) -> Result<bool, Refusal>
    ensures { told result ≡ pair_of a.now.encoding a.now.bytes.now a.now.index b.now.encoding b.now.bytes.now b.now.index }
{
    match (a.encoding, b.encoding) {
        (Encoding::Event, Encoding::Event) => Ok(a.index == b.index),
        (Encoding::Real, Encoding::Real) => {
            let same = same_bits(real_bits(a.bytes), real_bits(b.bytes));
            Ok(a.index == b.index && same)
        }
        _ => compare_tried(a, b),
    }
}

// The entries of two records that are not 2, in pairs.
#[tactic(auto, using(crate::proofs::Comparing::ended))]
fn compare_entries(a: &Lent, b: &Lent) -> Result<bool, Refusal>
    requires a_sound { is_bad a.now.description (lent_in a.now.slices) ≡ false }
    requires b_sound { is_bad b.now.description (lent_in b.now.slices) ≡ false }
    ensures { told result ≡ compare_records a.now.description (lent_in a.now.slices) b.now.description (lent_in b.now.slices) }
{
    let a_count = a.description.count;
    let b_count = b.description.count;
    for k in 0..a_count.min(b_count) {
        let agree = compare_pair(&a.entry(k), &b.entry(k))?;
        if !agree {
            return Ok(false);
        }
    }
    Ok(a_count == b_count)
}

#[tactic(auto, unfolding(crate::specs::Compare::compare_records, fst::specs::Refusal::tried))]
pub fn compare_records(a: &Lent, b: &Lent) -> Result<bool, Refusal>
    ensures { told result ≡ compare_records a.now.description (lent_in a.now.slices) b.now.description (lent_in b.now.slices) }
{
    if is_bad(a.description, a.slices) || is_bad(b.description, b.slices) {
        return Err(Refusal::BadRecord);
    }
    compare_entries(a, b)
}
