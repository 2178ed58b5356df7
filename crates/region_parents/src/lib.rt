// The parents that the tables of a held region make.
#![tactic(auto)]

ghost use Rattle.std.specs.Prelude.{◌≡◌, ℕ, length};
ghost use Rattle.definitions.specs.Basics.{List};
ghost use Rattle.definitions.specs.Parents.{last, parents_made, with_parents};
ghost use Rattle.patient_set.specs.Sets.{members};
ghost use Rattle.held_region.specs.Meaning.{optional, said};
ghost use Rattle.held_region.specs.Sound.{Sound};
ghost use Rattle.region_parents.specs.Neighbours.{Near, Gathered, tables_held};
ghost use Rattle.region_parents.specs.Making.{PatientsMade};

use held_region::{NO_PATIENT, Patient, Region};
use patient_set::PatientSet;
use region_sets::member_set;

// All of a set become neighbours of each other.
fn gather(near: &mut [PatientSet; 32], group: PatientSet)
    ensures { Gathered near.old group.0 near.new }
{
    for s in group.iter() {
        near[s] = near[s].join(group);
    }
}

// The neighbours of each patient: who shares a table with it.
fn sharing(region: Region) -> [PatientSet; 32]
    requires { Sound region }
    ensures { Near (tables_held region) result }
{
    let mut near = [PatientSet::EMPTY; 32];
    for i in (0..region.t).rev() {
        gather(&mut near, member_set(region.tables[i]));
    }
    near
}

// The highest-numbered of a patient's earlier neighbours.
fn parent_among(earlier: PatientSet) -> Option<u32>
    ensures { optional result ≡ last (members earlier.0) }
{
    if earlier.is_empty() {
        return None;
    }
    Some(earlier.highest())
}

// From the last patient to the first: its parent is made, then its earlier neighbours become neighbours of each other.
fn make_patients(region: Region, shared: [PatientSet; 32]) -> [Patient; 32]
    requires { (Sound region) × (Near (tables_held region) shared) }
    ensures { PatientsMade region result }
{
    let mut patients = [NO_PATIENT; 32];
    let mut near = shared;
    for s in (0..region.v).rev() {
        let all = near[s];
        let earlier = all.meet(PatientSet::below(s));
        patients[s] = Patient {
            parent: parent_among(earlier),
            ..region.patients[s]
        };
        gather(&mut near, earlier);
    }
    patients
}

// The same region with the parents that its tables make.
pub fn make_parents(region: Region) -> Region
    requires { Sound region }
    ensures { (store : List ℕ) → said result store ≡ with_parents (said region store) (parents_made (said region store)) }
{
    Region {
        patients: make_patients(region, sharing(region)),
        ..region
    }
}
