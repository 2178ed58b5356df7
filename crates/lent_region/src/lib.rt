// The region that a C program lends in three areas of eight-byte numbers: whether the areas are whole, and the region as it is held.
#![tactic(auto)]

ghost use Rattle.std.specs.Prelude.{◌≡◌, ◌+◌, ◌*◌, ◌/◌, ◌≤◌, min};
ghost use Rattle.definitions.specs.Basics.{true, length, eqb};
ghost use Rattle.definitions.specs.Boundary.{number_at, option_at, lent_patient, lent_table_count, lent_entries_before, lent_region, lent_whole};
ghost use Rattle.held_region.specs.Meaning.{optional, patient_of, said};
ghost use Rattle.held_region.specs.StandsFor.{StandsFor};
ghost use Rattle.lent_region.specs.CutOff.{cut, cut_option, cut_patient};
ghost use Rattle.lent_region.specs.Lent.{TableLent, PatientsLent, TablesLent, EntriesLent};

use byte_areas::{NONE, number_at};
use held_region::{FORBIDDEN, NO_PATIENT, NO_TABLE, Patient, Region, Table};
use scanner::code_of;

// Do the tables count so many entries? Each count is taken off what is left, so no sum is built that could overflow.
fn counts_add_up(tables: &[u8], total: usize) -> bool
    ensures { result ≡ eqb total (lent_entries_before tables.now (lent_table_count tables.now)) }
{
    let mut left = total as u64;
    for i in 0..tables.len() / 48 {
        let count = number_at(tables, i * 6 + 5);
        if left < count {
            return false;
        }
        left -= count;
    }
    left == 0
}

// 2, of lent areas: are there whole patients, whole tables, and as many entries as the tables count?
pub fn areas_whole(patients: &[u8], tables: &[u8], entries: &[u8]) -> bool
    ensures { result ≡ lent_whole patients.now tables.now entries.now }
{
    if patients.len() % 32 != 0 {
        return false;
    }
    if tables.len() % 48 != 0 {
        return false;
    }
    if entries.len() % 8 != 0 {
        return false;
    }
    counts_add_up(tables, entries.len() / 8)
}

// A number goes into 32 bits, and is no mark. Every limit is far below where it is cut off.
fn cut_off(n: u64) -> u32
    ensures { result ≡ cut n }
{
    n.min(FORBIDDEN as u64 - 1) as u32
}

fn field_at(area: &[u8], i: usize) -> u32
    requires { i * 8 + 8 ≤ length area.now }
    ensures { result ≡ cut (number_at area.now i) }
{
    cut_off(number_at(area, i))
}

// A number that may be none: a patient's parent or fixed bed, an entry.
fn optional_at(area: &[u8], i: usize) -> Option<u32>
    requires { i * 8 + 8 ≤ length area.now }
    ensures { optional result ≡ cut_option (option_at area.now i) }
{
    let n = number_at(area, i);
    if n == NONE { None } else { Some(cut_off(n)) }
}

fn patient_at(patients: &[u8], s: usize) -> Patient
    requires { s * 32 + 32 ≤ length patients.now }
    ensures { patient_of result ≡ cut_patient (lent_patient patients.now s) }
{
    Patient {
        clinic: field_at(patients, s * 4),
        beds: field_at(patients, s * 4 + 1),
        parent: optional_at(patients, s * 4 + 2),
        fixed: optional_at(patients, s * 4 + 3),
    }
}

fn table_at(tables: &[u8], i: usize) -> Table
    requires { i * 48 + 48 ≤ length tables.now }
    ensures { TableLent tables.now i result }
{
    Table {
        first: [
            field_at(tables, i * 6 + 1),
            field_at(tables, i * 6 + 2),
            field_at(tables, i * 6 + 3),
            field_at(tables, i * 6 + 4),
        ],
        members: number_at(tables, i * 6) as usize,
        entries: number_at(tables, i * 6 + 5) as usize,
    }
}

// The first 32 patients.
fn first_patients(patients: &[u8]) -> [Patient; 32]
    ensures { PatientsLent patients.now (min (length patients.now / 32) 32) result }
{
    let mut first = [NO_PATIENT; 32];
    for s in 0..(patients.len() / 32).min(32) {
        first[s] = patient_at(patients, s);
    }
    first
}

// The first 64 tables.
fn first_tables(tables: &[u8]) -> [Table; 64]
    ensures { TablesLent tables.now (min (length tables.now / 48) 64) result }
{
    let mut first = [NO_TABLE; 64];
    for i in 0..(tables.len() / 48).min(64) {
        first[i] = table_at(tables, i);
    }
    first
}

// The first 4,096 entries.
fn store_entries(entries: &[u8], store: &mut [u32; 4096])
    ensures { EntriesLent entries.now (min (length entries.now / 8) 4096) store.new }
{
    for k in 0..(entries.len() / 8).min(4096) {
        store[k] = code_of(optional_at(entries, k));
    }
}

// What is held of areas that are whole. Counts are held as they are; where more is lent than has places, questions 5, 7 and 8 refuse it.
pub fn region_lent(
    patients: &[u8],
    tables: &[u8],
    entries: &[u8],
    m: u64,
    store: &mut [u32; 4096],
) -> Region
    requires { lent_whole patients.now tables.now entries.now ≡ true }
    ensures { StandsFor true (said result store.new) (lent_region patients.now tables.now entries.now m) }
{
    store_entries(entries, store);
    Region {
        v: patients.len() / 32,
        t: tables.len() / 48,
        m: m as usize,
        patients: first_patients(patients),
        tables: first_tables(tables),
    }
}
