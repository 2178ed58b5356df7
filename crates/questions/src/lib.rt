// Questions 5 to 10, asked of a held region in their order.
#![tactic(auto)]

pub mod fields;

ghost use Rattle.std.specs.Prelude.{◌≡◌};
ghost use Rattle.definitions.specs.Basics.{true};
ghost use Rattle.definitions.specs.Questions.{first_no};
ghost use Rattle.held_region.specs.Meaning.{said};
ghost use Rattle.held_region.specs.Sound.{Sound, ParentsFirst};
ghost use Rattle.held_region.specs.Refusals.{number_of, asked, last_asked};

use entry_questions::{entries_fit, entry_counts};
use fields::{counts_fit, members_right, patients_right};
use held_region::{Refusal, Region};
use region_sets::members_related;

// Questions 8 to 10, which rely on the ones before them.
fn judge_entries(region: Region, store: &[u32; 4096], parents: bool) -> Result<(), Refusal>
    requires { (Sound region) × (parents ≡ true → ParentsFirst region) }
    ensures { number_of result ≡ first_no (last_asked parents (said region store.now)) }
{
    let total = entry_counts(region).ok_or(Refusal::EntryCounts)?;
    if !entries_fit(store, total) {
        return Err(Refusal::Entries);
    }
    if parents && !members_related(region) {
        return Err(Refusal::Ancestors);
    }
    Ok(())
}

// Questions 5 to 10 in their order, with or without those of parents: the first no is the answer.
// Whether parents are asked is a flag, since what it leaves out is half of one question and another behind three more.
pub fn judge(region: Region, store: &[u32; 4096], parents: bool) -> Result<(), Refusal>
    ensures { number_of result ≡ first_no (asked parents (said region store.now)) }
{
    if !counts_fit(region) {
        return Err(Refusal::Limits);
    }
    if !patients_right(region, parents) {
        return Err(Refusal::Patients);
    }
    if !members_right(region) {
        return Err(Refusal::Members);
    }
    judge_entries(region, store, parents)
}
