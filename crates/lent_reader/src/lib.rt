// The call of read: what a file says, laid in the three areas that the writer's call takes.
#![tactic(auto)]

ghost use Rattle.std.specs.Prelude.{◌≡◌, ◌≤◌};
ghost use Rattle.definitions.specs.Boundary.{result_after, read_call};
ghost use Rattle.theorems.specs.Accepted.{Accepted};
ghost use Rattle.held_region.specs.Meaning.{said};
ghost use Rattle.lent_reader.specs.Called.{room_for, no_counts, read_accepted};

use answers::Numbered;
use byte_areas::{FOUR, store_result};
use entry_questions::entry_total;
use held_region::{FORBIDDEN, Region};
use reader::load;
use region_areas::{store_entries, store_patients, store_tables};

// 12, of the areas, by their lengths.
fn has_room(
    region: Region,
    total: usize,
    patients: usize,
    tables: usize,
    entries: usize,
    res: usize,
) -> bool
    requires { (region.v ≤ 32) × (region.t ≤ 64) × (total ≤ 4096) }
    ensures { result ≡ room_for region total patients tables entries res }
{
    if res < FOUR {
        return false;
    }
    if patients < region.v * 32 {
        return false;
    }
    if tables < region.t * 48 {
        return false;
    }
    total * 8 <= entries
}

// A refusal: zeros in the result area, and the number.
fn refused(res: &mut [u8], number: u64) -> u64
    ensures { (result ≡ number) × (res.new ≡ result_after no_counts res.old) }
{
    store_result(res, &[0; 4]);
    number
}

// What read answers of an accepted file: all of its region is laid in the areas, or nothing.
fn lay_region(
    region: Region,
    store: &[u32; 4096],
    patients: &mut [u8],
    tables: &mut [u8],
    entries: &mut [u8],
    res: &mut [u8],
) -> u64
    requires { Accepted (said region store.now) }
    ensures { record { number = result; patients = patients.new; tables = tables.new; entries = entries.new; result = res.new } ≡ read_accepted (said region store.now) patients.old tables.old entries.old res.old }
{
    let total = entry_total(region);
    if !has_room(
        region,
        total,
        patients.len(),
        tables.len(),
        entries.len(),
        res.len(),
    ) {
        return refused(res, 12);
    }
    store_patients(patients, region);
    store_tables(tables, region);
    store_entries(entries, store, total);
    let counts = [
        region.v as u64,
        region.t as u64,
        region.m as u64,
        total as u64,
    ];
    store_result(res, &counts);
    0
}

// The result area holds four numbers: V, T, m and how many entries there are.
pub fn read_call(
    file: &[u8],
    patients: &mut [u8],
    tables: &mut [u8],
    entries: &mut [u8],
    res: &mut [u8],
) -> u64
    ensures { record { number = result; patients = patients.new; tables = tables.new; entries = entries.new; result = res.new } ≡ read_call file.now patients.old tables.old entries.old res.old }
{
    let mut store = [FORBIDDEN; 4096];
    match load(file, &mut store, true) {
        Ok(region) => lay_region(region, &store, patients, tables, entries, res),
        Err(refusal) => refused(res, refusal.number()),
    }
}
