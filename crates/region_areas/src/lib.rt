// A held region laid in the three areas in which a C program holds it: eight bytes a number, one patient, table or entry behind the other.
#![tactic(auto)]

ghost use Rattle.std.specs.Prelude.{◌≡◌, ◌+◌, ◌*◌, ◌≤◌, ◌<◌};
ghost use Rattle.definitions.specs.Basics.{below, flat_map, get_or, length};
ghost use Rattle.definitions.specs.Outcomes.{written};
ghost use Rattle.definitions.specs.Boundary.{bytes_of, numbers_after, option_number, numbers_of_patient};
ghost use Rattle.held_region.specs.Meaning.{optional, patient_of, members_of};
ghost use Rattle.region_areas.specs.Laid.{patient_part, numbers_of_held, table_part, entry_part};

use byte_areas::{NONE, store_number, store_numbers};
use held_region::{Patient, Region, Table};
use scanner::said_by;

fn option_number(field: Option<u32>) -> u64
    ensures { result ≡ option_number (optional field) }
{
    field.map_or(NONE, u64::from)
}

// A member of a table; 0 where it has none.
fn member_number(table: Table, j: usize) -> u64
    requires { j < 4 }
    ensures { result ≡ get_or (members_of table) j 0 }
{
    if j < table.members {
        u64::from(table.first[j])
    } else {
        0
    }
}

fn store_patient(patients: &mut [u8], s: usize, patient: Patient)
    requires { s * 32 + 32 ≤ length patients.old }
    ensures { patients.new ≡ written (s * 4) 8 (bytes_of 8) (numbers_of_patient (patient_of patient)) patients.old }
{
    let numbers = [
        u64::from(patient.clinic),
        u64::from(patient.beds),
        option_number(patient.parent),
        option_number(patient.fixed),
    ];
    store_numbers(patients, s * 4, &numbers);
}

pub fn store_patients(patients: &mut [u8], region: Region)
    requires { (region.v ≤ 32) × (region.v * 32 ≤ length patients.old) }
    ensures { patients.new ≡ numbers_after (flat_map (patient_part region) (below region.v)) patients.old }
{
    for s in 0..region.v {
        store_patient(patients, s, region.patients[s]);
    }
}

fn store_table(tables: &mut [u8], i: usize, table: Table)
    requires { i * 48 + 48 ≤ length tables.old }
    ensures { tables.new ≡ written (i * 6) 8 (bytes_of 8) (numbers_of_held table) tables.old }
{
    let numbers = [
        table.members as u64,
        member_number(table, 0),
        member_number(table, 1),
        member_number(table, 2),
        member_number(table, 3),
        table.entries as u64,
    ];
    store_numbers(tables, i * 6, &numbers);
}

pub fn store_tables(tables: &mut [u8], region: Region)
    requires { (region.t ≤ 64) × (region.t * 48 ≤ length tables.old) }
    ensures { tables.new ≡ numbers_after (flat_map (table_part region) (below region.t)) tables.old }
{
    for i in 0..region.t {
        store_table(tables, i, region.tables[i]);
    }
}

// The first entries of the store.
pub fn store_entries(entries: &mut [u8], store: &[u32; 4096], total: usize)
    requires { (total ≤ 4096) × (total * 8 ≤ length entries.old) }
    ensures { entries.new ≡ numbers_after (flat_map (entry_part store.now) (below total)) entries.old }
{
    for k in 0..total {
        store_number(entries, k * 8, option_number(said_by(store[k])));
    }
}
