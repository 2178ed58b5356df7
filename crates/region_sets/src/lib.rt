// Clinics, members and ancestors as sets of patients, and question 10, which is asked of them.
#![tactic(auto)]

ghost use Rattle.std.specs.Prelude.{◌≡◌, ℕ, ◌<◌};
ghost use Rattle.definitions.specs.Basics.{some, List, ltb, every, keep};
ghost use Rattle.definitions.specs.Syntax.{patients_of};
ghost use Rattle.definitions.specs.Questions.{members_related};
ghost use Rattle.patient_set.specs.Sets.{in_set, members};
ghost use Rattle.held_region.specs.Meaning.{optional, members_of, said};
ghost use Rattle.held_region.specs.Sound.{HasPlaces, ParentsFirst, Sound};
ghost use Rattle.held_region.specs.Related.{MembersKnown, above_of, AncestorsHeld, set_in, chained};

use held_region::{Region, Table};
use limits::{Field, within};
use patient_set::PatientSet;

// The patients of a clinic, whatever the store says.
fn clinic_set(region: Region, clinic: u32) -> PatientSet
    requires { HasPlaces region }
    ensures { (store : List ℕ) → members result.0 ≡ patients_of (said region store) clinic }
{
    let mut set = PatientSet::EMPTY;
    for s in 0..region.v {
        if region.patients[s].clinic == clinic {
            set = set.add(s);
        }
    }
    set
}

// The same for any number: one that no clinic can have is compared as it is, and has none.
pub fn clinic_patients(region: Region, clinic: u64) -> PatientSet
    requires { Sound region }
    ensures { (store : List ℕ) → members result.0 ≡ patients_of (said region store) clinic }
{
    if !within(Field::Clinic, clinic as usize) {
        return PatientSet::EMPTY;
    }
    clinic_set(region, clinic as u32)
}

// The members of a table.
pub fn member_set(table: Table) -> PatientSet
    requires { MembersKnown table }
    ensures { members result.0 ≡ members_of table }
{
    let mut set = PatientSet::EMPTY;
    for place in 0..table.members {
        set = set.add(table.first[place] as usize);
    }
    set
}

// The ancestors of who has this parent: the parent, and its ancestors.
fn above(sets: &[PatientSet; 32], parent: Option<u32>) -> PatientSet
    requires { (p : ℕ) → optional parent ≡ some p → p < 32 }
    ensures { (q : ℕ) → in_set result.0 q ≡ above_of sets.now (optional parent) q }
{
    match parent {
        None => PatientSet::EMPTY,
        Some(p) => sets[p as usize].add(p as usize),
    }
}

// The ancestors of each patient. A parent's number is smaller, so its ancestors are known first.
pub fn ancestor_sets(region: Region) -> [PatientSet; 32]
    requires { ParentsFirst region }
    ensures { AncestorsHeld region region.v result }
{
    let mut sets = [PatientSet::EMPTY; 32];
    for child in 0..region.v {
        sets[child] = above(&sets, region.patients[child].parent);
    }
    sets
}

// Are all of a set that are lower than b among the ancestors of b?
fn lower_above(set: PatientSet, ancestors: PatientSet, b: usize) -> bool
    requires { b < 32 }
    ensures { result ≡ every (in_set ancestors.0) (keep (λ q. ltb q b) (members set.0)) }
{
    let lower = set.meet(PatientSet::below(b));
    lower.minus(ancestors).is_empty()
}

// Is of any two of a set the lower one an ancestor of the other?
fn all_chained(set: PatientSet, ancestors: &[PatientSet; 32]) -> bool
    ensures { result ≡ chained (set_in ancestors.now) (members set.0) }
{
    for b in set.iter() {
        if !lower_above(set, ancestors[b], b) {
            return false;
        }
    }
    true
}

// 10. Of any two members of a table, is one an ancestor of the other?
pub fn members_related(region: Region) -> bool
    requires { (Sound region) × (ParentsFirst region) }
    ensures { (store : List ℕ) → result ≡ members_related (said region store) }
{
    let ancestors = ancestor_sets(region);
    for i in 0..region.t {
        if !all_chained(member_set(region.tables[i]), &ancestors) {
            return false;
        }
    }
    true
}
