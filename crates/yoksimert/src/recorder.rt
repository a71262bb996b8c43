// The recorder lent by `&mut`: it is a description by numbers, and each call changes it in place. The work is done by value, and a call
// stores what that hands back.
ghost use Rattle.std.specs.Prelude.{◌≡◌};
ghost use Rattle.fst.specs.Refusal.{Outcome, number_of};
ghost use Rattle.fst.specs.Record.{lent, fresh_real};
ghost use Rattle.fst.specs.Change.{text, real};
ghost use Rattle.yoksimert.specs.Flat.{encoded};
ghost use Rattle.yoksimert.specs.Exports.{left_by_flat, flat_add};
ghost use Rattle.yoksimert.specs.declared.FlatDescription.{FlatDescription};
ghost use Rattle.yoksimert.specs.Recorder.{recorded_by, flat_fresh};

use crate::FlatDescription;
use fst::record::{fresh, fresh_real};
use fst::{Added, Description, verdict_number};

// Stores what a change leaves of a recorder, whose kind and width stay, and gives its number.
fn store(recorder: &mut FlatDescription, added: Added) -> u32
    ensures number { result ≡ number_of added.verdict }
    ensures left { recorder.new ≡ recorded_by recorder.old added }
{
    let next = FlatDescription::from(added.next);
    recorder.set = next.set;
    recorder.count = next.count;
    u32::from(verdict_number(added.verdict))
}

// Fresh: the empty record of a width; width 0 makes an event.
#[unsafe(no_mangle)]
pub extern "C" fn yoksimert_recorder_fresh(recorder: &mut FlatDescription, width: u32) -> u32
    ensures { ◌≡◌ {A = Outcome FlatDescription} (record { refused = result; left = recorder.new }) (flat_fresh recorder.old width) }
{
    match fresh(width) {
        Ok(description) => {
            *recorder = FlatDescription::from(description);
            0
        }
        Err(refusal) => u32::from(refusal.number()),
    }
}

// Fresh: the empty record of reals. The answer is 0.
#[unsafe(no_mangle)]
pub extern "C" fn yoksimert_recorder_fresh_real(recorder: &mut FlatDescription) -> u32
    ensures { ◌≡◌ {A = Outcome FlatDescription} (record { refused = result; left = recorder.new }) (record { refused = 0; left = encoded fresh_real }) }
{
    *recorder = FlatDescription::from(fresh_real());
    0
}

// Add a change, a string's.
#[tactic(auto, unfolding(crate::specs::Exports::flat_add))]
#[unsafe(no_mangle)]
pub extern "C" fn yoksimert_recorder_add_change(
    recorder: &mut FlatDescription,
    bytes: &mut [u8],
    byte_start: usize,
    indices: &mut [u32],
    index_start: usize,
    index: u32,
    value: &[u8],
) -> u32
    ensures { left_by_flat result recorder.new bytes.new indices.new ≡ flat_add recorder.old (lent bytes.old byte_start indices.old index_start) index (text value.now) }
{
    match Description::try_from(*recorder) {
        Ok(known) => store(
            recorder,
            known.add_change(bytes, byte_start, indices, index_start, index, value),
        ),
        Err(refusal) => u32::from(refusal.number()),
    }
}

// Add a change, a real's, by its 64 bits.
#[tactic(auto, unfolding(crate::specs::Exports::flat_add))]
#[unsafe(no_mangle)]
pub extern "C" fn yoksimert_recorder_add_real(
    recorder: &mut FlatDescription,
    bytes: &mut [u8],
    byte_start: usize,
    indices: &mut [u32],
    index_start: usize,
    index: u32,
    bits: u64,
) -> u32
    ensures { left_by_flat result recorder.new bytes.new indices.new ≡ flat_add recorder.old (lent bytes.old byte_start indices.old index_start) index (real bits) }
{
    match Description::try_from(*recorder) {
        Ok(known) => store(
            recorder,
            known.add_real(bytes, byte_start, indices, index_start, index, bits),
        ),
        Err(refusal) => u32::from(refusal.number()),
    }
}
