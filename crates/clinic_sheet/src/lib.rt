// What sheet answers of the region of an accepted file.
#![tactic(auto)]

ghost use Rattle.held_region.specs.Meaning.{said};
ghost use Rattle.theorems.specs.Accepted.{Accepted};
ghost use Rattle.clinic_sheet.specs.Sheets.{AsksSheet, SheetWritten, RegionSheeted};

use answers::SheetError;
use held_region::Region;
use patient_set::PatientSet;
use region_sets::clinic_patients;
use row_sums::{SECOND, THIRD};
use row_writer::{clear, long_enough, write_rows};
use search::list_region;
use sheets::sheet_rows;

// The sheet of the list that lies in the work area, written out. The work area is cleared behind it.
fn write_sheet(
    region: Region,
    store: &[u32; 4096],
    n: usize,
    clinic: PatientSet,
    beds: &mut [u8],
    costs: &mut [u32],
    work: &mut [u32],
) -> usize
    requires { AsksSheet region store.now n clinic.0 beds.old costs.old work.old }
    ensures { SheetWritten region store.now n clinic.0 beds.old costs.old work.old result beds.new costs.new work.new }
{
    let rows = sheet_rows(work, region, store, n, clinic);
    let k = clinic.size() as usize;
    write_rows(&work[SECOND..THIRD], k, rows, beds, costs);
    clear(work);
    rows
}

// Questions 11, 12 and 13, then the clinic's sheet, written out.
pub fn sheet_loaded(
    region: Region,
    store: &[u32; 4096],
    clinic: u64,
    beds: &mut [u8],
    costs: &mut [u32],
    work: &mut [u32],
) -> Result<usize, SheetError>
    requires { Accepted (said region store.now) }
    ensures { RegionSheeted (said region store.now) clinic beds.old costs.old work.old result beds.new costs.new work.new }
{
    let set = clinic_patients(region, clinic);
    if set.is_empty() {
        return Err(SheetError::Absent);
    }
    if !long_enough(region.v, region.m, beds.len(), costs.len(), work.len()) {
        return Err(SheetError::Short);
    }
    let n = list_region(work, region, store);
    let rows = write_sheet(region, store, n, set, beds, costs, work);
    if n == 0 {
        return Err(SheetError::Nothing);
    }
    Ok(rows)
}
