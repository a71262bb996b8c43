// Strings of at most eight characters, each read once, as one word: the first character in the highest byte.
ghost use Rattle.std.specs.Prelude.{◌≡◌, ◌≤◌, All, fold, length, map};
ghost use Rattle.value.specs.Digits.{number, digits, Below};
ghost use Rattle.value.specs.Level.{fold_all, codes_of};
ghost use Rattle.value.specs.Answer.{holds_one};
ghost use Rattle.wavemem.specs.Short.{padded, zeros, marks, Scan, InWord, pushed_by};

use crate::word;
use value::States;

// The least set of a string, and the number of its levels under that set.
#[derive(Clone, Copy)]
pub struct Scanned {
    pub states: States,
    pub levels: u64,
}

// The word of a string, with characters 0 in front of a shorter one.
#[tactic(auto, using(crate::proofs::Words::padded_more, value::proofs::Digits::below_all), unfolding(value::specs::Digits::number))]
fn padded_word(value: &[u8]) -> u64
    requires { length value.now ≤ 8 }
    ensures { result ≡ number 256 (padded value.now) }
{
    if value.len() == 8 {
        return word(value);
    }
    let mut w: u64 = 0x3030_3030_3030_3030;
    for c in value {
        w = (w << 8) | u64::from(*c);
    }
    w
}

// Levels of one bit, a byte apart, pushed together: with no masks between the steps, so that a loop over words is compiled to wide instructions.
#[tactic(auto, using(crate::proofs::Squeeze::bits_squeezed))]
fn squeeze_1(x: u64) -> u64
    requires { Below 2 (digits 256 8 x) }
    ensures { result ≡ number 2 (digits 256 8 x) }
{
    let y = x | (x >> 7);
    let z = y | (y >> 14);
    (z | (z >> 28)) & 255
}

// Lanes pushed together by steps, each a shift that joins neighbours and a mask of what they make.
pub fn squeeze<const STEPS: usize>(x: u64, steps: &[(u32, u64); STEPS]) -> u64
    requires { All InWord steps.now }
    ensures { result ≡ fold pushed_by x steps.now }
{
    let mut y = x;
    for (shift, mask) in steps {
        y = (y | (y >> *shift)) & *mask;
    }
    y
}

// Levels of two bits, where masks are needed.
fn squeeze_2(x: u64) -> u64
    requires { Below 4 (digits 256 8 x) }
    ensures { result ≡ number 4 (digits 256 8 x) }
{
    squeeze(
        x,
        &[
            (6, 0x000f_000f_000f_000f),
            (12, 0x0000_00ff_0000_00ff),
            (24, 0xffff),
        ],
    )
}

// Levels of four bits.
fn squeeze_4(x: u64) -> u64
    requires { Below 16 (digits 256 8 x) }
    ensures { result ≡ number 16 (digits 256 8 x) }
{
    squeeze(
        x,
        &[
            (4, 0x00ff_00ff_00ff_00ff),
            (8, 0x0000_ffff_0000_ffff),
            (16, 0xffff_ffff),
        ],
    )
}

// The number of eight characters 0 1.
#[tactic(auto, using(crate::proofs::Codes::two_codes))]
pub fn two_of_word(w: u64) -> u64
    requires { Below 2 (codes_of (fold_all (digits 256 8 w))) }
    ensures { result ≡ number 2 (codes_of (fold_all (digits 256 8 w))) }
{
    squeeze_1(w & 0x0101_0101_0101_0101)
}

// The number of eight characters 0 1 x z. Bits tell each one's code.
#[tactic(auto, using(crate::proofs::Codes::four_codes))]
pub fn four_of_word(w: u64) -> u64
    requires { Below 4 (codes_of (fold_all (digits 256 8 w))) }
    ensures { result ≡ number 4 (codes_of (fold_all (digits 256 8 w))) }
{
    squeeze_2(((w >> 2) & 0x0202_0202_0202_0202) | ((w | (w >> 1)) & 0x0101_0101_0101_0101))
}

// The number of eight characters 0 1 x z h u w l -, each bit of the codes by itself.
#[tactic(auto, using(crate::proofs::Codes::nine_codes, value::proofs::Digits::below_mono))]
fn nine_of_word(w: u64) -> u64
    requires { Below 9 (codes_of (fold_all (digits 256 8 w))) }
    ensures { result ≡ number 16 (codes_of (fold_all (digits 256 8 w))) }
{
    let b1 = w >> 1;
    let b2 = w >> 2;
    let b3 = w >> 3;
    let b4 = w >> 4;
    let b6 = w >> 6;
    let c0 = ((w ^ b1) ^ (b2 & b3)) & 0x0101_0101_0101_0101;
    let c1 = (((b3 & b6) & (b4 | b2)) | b1) & 0x0101_0101_0101_0101;
    let c2 = (b6 & (b4 ^ b3)) & 0x0101_0101_0101_0101;
    let c3 = (b3 & w) & 0x0101_0101_0101_0101;
    squeeze_4((c0 | (c1 << 1)) | ((c2 << 2) | (c3 << 3)))
}

// The top bit of each byte that is not 0.
#[tactic(auto, using(crate::proofs::Marks::set_told))]
fn set_bytes(x: u64) -> u64
    ensures { result ≡ marks (zeros x) }
{
    (((x & 0x7f7f_7f7f_7f7f_7f7f) + 0x7f7f_7f7f_7f7f_7f7f) | x) & 0x8080_8080_8080_8080
}

// A byte 0 for each character 0 1, and another for every other byte.
#[tactic(auto, using(crate::proofs::Marks::two_told))]
fn beside_two(w: u64) -> u64
    ensures { zeros result ≡ map (holds_one 2) (digits 256 8 w) }
{
    (w ^ 0x3030_3030_3030_3030) & 0xfefe_fefe_fefe_fefe
}

// The top bit of each byte that is no character 0 1 x z.
#[tactic(auto, using(crate::proofs::Marks::four_told))]
fn beside_four(w: u64) -> u64
    ensures { result ≡ marks (map (holds_one 4) (digits 256 8 w)) }
{
    let xz = ((w | 0x2020_2020_2020_2020) & 0xfdfd_fdfd_fdfd_fdfd) ^ 0x7878_7878_7878_7878;
    set_bytes(beside_two(w)) & set_bytes(xz)
}

// The top bit of each foreign byte. The compiler shares what it has of `beside_four` already.
#[tactic(auto, using(crate::proofs::Marks::nine_told))]
fn beside_nine(w: u64) -> u64
    ensures { result ≡ marks (map (holds_one 9) (digits 256 8 w)) }
{
    let small = w | 0x2020_2020_2020_2020;
    let uw = (small & 0xfdfd_fdfd_fdfd_fdfd) ^ 0x7575_7575_7575_7575;
    let hl = (small & 0xfbfb_fbfb_fbfb_fbfb) ^ 0x6868_6868_6868_6868;
    let dash = w ^ 0x2d2d_2d2d_2d2d_2d2d;
    beside_four(w) & ((set_bytes(uw) & set_bytes(hl)) & set_bytes(dash))
}

// The least set of eight characters, and the number of their levels.
#[tactic(auto, using(crate::proofs::Marks::all_held, crate::proofs::Marks::not_held, crate::proofs::Marks::all_marked, crate::proofs::Marks::not_marked, value::proofs::Classes::is_two, value::proofs::Classes::is_four, value::proofs::Classes::is_nine, value::proofs::Classes::is_foreign_lem))]
fn scan_word(w: u64) -> Option<Scanned>
    ensures { Scan (digits 256 8 w) result }
{
    if beside_two(w) == 0 {
        return Some(Scanned {
            states: States::Two,
            levels: two_of_word(w),
        });
    }
    if beside_four(w) == 0 {
        return Some(Scanned {
            states: States::Four,
            levels: four_of_word(w),
        });
    }
    if beside_nine(w) == 0 {
        return Some(Scanned {
            states: States::Nine,
            levels: nine_of_word(w),
        });
    }
    None
}

// The least set of a string, and the number of its levels: characters 0 in front change neither.
#[tactic(auto, using(crate::proofs::Scans::padded_scan, value::proofs::Digits::below_all))]
pub fn scan_short(value: &[u8]) -> Option<Scanned>
    requires { length value.now ≤ 8 }
    ensures { Scan value.now result }
{
    scan_word(padded_word(value))
}
