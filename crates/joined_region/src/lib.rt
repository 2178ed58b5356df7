// Two held regions joined: whether they have a clinic in common, whether both have their place together, and the region that they make.
#![tactic(auto)]

ghost use Rattle.std.specs.Prelude.{◌≡◌, ℕ, ◌+◌, ◌<◌, ◌≤◌, length, slice_index_or};
ghost use Rattle.definitions.specs.Basics.{not, List};
ghost use Rattle.definitions.specs.Questions.{clinic_present};
ghost use Rattle.definitions.specs.Joining.{patient_after, joined_region, clinics_apart, join_within};
ghost use Rattle.held_region.specs.Meaning.{optional, patient_of, said};
ghost use Rattle.held_region.specs.Sound.{HasPlaces};
ghost use Rattle.joined_region.specs.Joined.{Countable, Fitting, ParentMoves, MembersMove, TableMoved, PatientsJoined, TablesJoined, EntriesJoined};

use entry_questions::entry_total;
use held_region::{NO_PATIENT, NO_TABLE, Patient, Region, Table};
use limits::{Field, within};

// Has no patient of the region this clinic?
fn lacks_clinic(region: Region, clinic: u32) -> bool
    requires { HasPlaces region }
    ensures { (store : List ℕ) → result ≡ not (clinic_present (said region store) clinic) }
{
    (0..region.v).all(|s| region.patients[s].clinic != clinic)
}

// 16. Have they no clinic in common?
pub fn clinics_apart(first: Region, second: Region) -> bool
    requires { (HasPlaces first) × (HasPlaces second) }
    ensures { (store other : List ℕ) → result ≡ clinics_apart (said first store) (said second other) }
{
    (0..first.v).all(|s| lacks_clinic(second, first.patients[s].clinic))
}

// 17. Do patients, tables and entries stay within 32, 64 and 4,096?
pub fn join_within(first: Region, second: Region) -> bool
    requires { (Countable first) × (Countable second) }
    ensures { (store other : List ℕ) → result ≡ join_within (said first store) (said second other) }
{
    if !within(Field::PatientCount, first.v + second.v) {
        return false;
    }
    if !within(Field::TableCount, first.t + second.t) {
        return false;
    }
    within(Field::EntryCount, entry_total(first) + entry_total(second))
}

// A patient of the second region, behind the v patients of the first: so is its parent.
fn patient_after(patient: Patient, v: u32) -> Patient
    requires { ParentMoves (optional patient.parent) v }
    ensures { patient_of result ≡ patient_after v (patient_of patient) }
{
    Patient {
        parent: patient.parent.map(|q| v + q),
        ..patient
    }
}

// A table of the second region: the members that it counts are moved.
fn table_after(table: Table, v: u32) -> Table
    requires { MembersMove table v }
    ensures { TableMoved v table result }
{
    let mut first = [0; 4];
    for j in 0..table.members {
        first[j] = v + table.first[j];
    }
    Table { first, ..table }
}

// The first n of a kind, behind them the second m, and what is blank in the places that are left.
fn append<T: Copy, F: Fn(usize) -> T, G: Fn(usize) -> T, const N: usize>(
    blank: T,
    n: usize,
    first: F,
    m: usize,
    second: G,
) -> [T; N]
    requires room { n + m ≤ N }
    requires first_asked { (k : ℕ) → k < n → F.pre first k }
    requires second_asked { (k : ℕ) → k < m → G.pre second k }
    ensures first_given { (e : T) (k : ℕ) → k < n → F.post first k (slice_index_or result k e) }
    ensures second_given { (e : T) (k : ℕ) → k < m → G.post second k (slice_index_or result (n + k) e) }
{
    let mut both = [blank; N];
    for k in 0..n {
        both[k] = first(k);
    }
    for k in 0..m {
        both[n + k] = second(k);
    }
    both
}

fn append_patients(first: Region, second: Region) -> [Patient; 32]
    requires { Fitting first second }
    ensures { PatientsJoined first second (first.v + second.v) result }
{
    append(
        NO_PATIENT,
        first.v,
        |s| first.patients[s],
        second.v,
        |s| patient_after(second.patients[s], first.v as u32),
    )
}

fn append_tables(first: Region, second: Region) -> [Table; 64]
    requires { Fitting first second }
    ensures { TablesJoined first second (first.t + second.t) result }
{
    append(
        NO_TABLE,
        first.t,
        |i| first.tables[i],
        second.t,
        |i| table_after(second.tables[i], first.v as u32),
    )
}

// The first n numbers of another store, behind the first of this one.
fn append_entries(store: &mut [u32; 4096], at: usize, other: &[u32; 4096], n: usize)
    requires { at + n ≤ 4096 }
    ensures { EntriesJoined store.old at other.now (at + n) store.new }
{
    store[at..at + n].copy_from_slice(&other[..n]);
}

// The joined region. Its entries stand in the first region's store, the second's behind the first's.
pub fn join_regions(
    first: Region,
    store: &mut [u32; 4096],
    second: Region,
    other: &[u32; 4096],
) -> Region
    requires { Fitting first second }
    ensures { said result store.new ≡ joined_region (said first store.old) (said second other.now) }
{
    append_entries(store, entry_total(first), other, entry_total(second));
    Region {
        v: first.v + second.v,
        t: first.t + second.t,
        m: first.m.min(second.m),
        patients: append_patients(first, second),
        tables: append_tables(first, second),
    }
}
