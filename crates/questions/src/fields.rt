// Questions 5 to 7, asked of a held region: whatever its store says, the answers are the same.
ghost use Rattle.std.specs.Prelude.{◌≡◌, ◌≤◌, ◌&&◌, ◌||◌};
ghost use Rattle.definitions.specs.Basics.{ℕ, List, not};
ghost use Rattle.definitions.specs.Questions.{counts_within, patients_within, parents_smaller, members_right};
ghost use Rattle.held_region.specs.Meaning.{optional, patient_of, members_of, said};
ghost use Rattle.held_region.specs.Members.{members_fit, rises_from};
ghost use Rattle.held_region.specs.Sound.{HasPlaces};
ghost use Rattle.held_region.specs.Asked.{patient_fits, none_or_below};

use held_region::{Patient, Region, Table};
use limits::{Field, within};

// 5. Are V, T and m within their limits?
#[tactic(auto, unfolding(definitions::specs::Questions::counts_within, held_region::specs::Meaning::said))]
pub fn counts_fit(region: Region) -> bool
    ensures { (store : List ℕ) → result ≡ counts_within (said region store) }
{
    within(Field::PatientCount, region.v)
        && within(Field::TableCount, region.t)
        && within(Field::PlansWanted, region.m)
}

// Is there no number in a field, or one below n?
fn none_or_below(field: Option<u32>, n: usize) -> bool
    ensures { result ≡ none_or_below (optional field) n }
{
    field.is_none_or(|k| (k as usize) < n)
}

fn patient_fits(patient: Patient) -> bool
    ensures { result ≡ patient_fits (patient_of patient) }
{
    let beds = patient.beds as usize;
    within(Field::Clinic, patient.clinic as usize)
        && within(Field::BedCount, beds)
        && none_or_below(patient.fixed, beds)
}

// 6, but for parents: is each clinic and bed count within its limits, each fixed bed below the count?
pub fn patients_fit(region: Region) -> bool
    requires { HasPlaces region }
    ensures { (store : List ℕ) → result ≡ patients_within (said region store) }
{
    (0..region.v).all(|s| patient_fits(region.patients[s]))
}

// 6, of parents: has each a smaller number than the patient's own?
pub fn parents_smaller(region: Region) -> bool
    requires { HasPlaces region }
    ensures { (store : List ℕ) → result ≡ parents_smaller (said region store) }
{
    (0..region.v).all(|s| none_or_below(region.patients[s].parent, s))
}

// 6. Are the patients right, and if it is asked, their parents?
pub fn patients_right(region: Region, parents: bool) -> bool
    requires { HasPlaces region }
    ensures { (store : List ℕ) → result ≡ (patients_within (said region store) && (not parents || parents_smaller (said region store))) }
{
    patients_fit(region) && (!parents || parents_smaller(region))
}

// Are a table's members below v, each above the one before it?
fn members_rise(table: Table, v: usize) -> bool
    requires { table.members ≤ 4 }
    ensures { result ≡ rises_from v 0 (members_of table) }
{
    let mut least = 0;
    for i in 0..table.members {
        let s = table.first[i] as usize;
        if v <= s || s < least {
            return false;
        }
        least = s + 1;
    }
    true
}

fn members_fit(table: Table, v: usize) -> bool
    ensures { result ≡ members_fit v (members_of table) }
{
    within(Field::MemberCount, table.members) && members_rise(table, v)
}

// 7. Has each table a right number of members, all below V, in strictly rising order?
pub fn members_right(region: Region) -> bool
    requires { HasPlaces region }
    ensures { (store : List ℕ) → result ≡ members_right (said region store) }
{
    (0..region.t).all(|i| members_fit(region.tables[i], region.v))
}
