// The printed text of a file: its list, and a sheet for each clinic that has patients.
#![tactic(auto)]

ghost use Rattle.printer.specs.Printing.{print_outcome};
ghost use Rattle.printer.specs.Steps.{AsksClinic, GivesClinic, AsksSheets, GivesSheets, AsksText, GivesText};
ghost use Rattle.std.specs.Prelude.{◌≡◌};

use answers::Numbered;
use held_region::{FORBIDDEN, Region};
use limits::{Field, highest};
use reader::load;
use region_sets::clinic_patients;
use row_printer::{print_list, print_refusal, print_sheet};
use row_sums::{SECOND, THIRD};
use search::list_region;
use sheets::sheet_rows;

// The longest text that is printed.
const LONGEST: usize = 32_106;

// How many numbers of work area the list asks for.
const WORK: usize = 1_152;

// A clinic's sheet, from the list in the work area. A clinic that has no patients prints nothing.
fn print_clinic(
    out: &mut [u8],
    at: usize,
    work: &mut [u32],
    region: Region,
    store: &[u32; 4096],
    n: usize,
    clinic: u64,
) -> usize
    requires { AsksClinic region store.now n clinic at out.old work.old }
    ensures { GivesClinic region store.now n clinic at out.old work.old out.new work.new result }
{
    let set = clinic_patients(region, clinic);
    if set.is_empty() {
        return at;
    }
    let rows = sheet_rows(work, region, store, n, set);
    let k = set.size() as usize;
    print_sheet(out, at, clinic, &work[SECOND..THIRD], k, rows)
}

// The sheets of all clinics that have patients, rising.
fn print_sheets(
    out: &mut [u8],
    at: usize,
    work: &mut [u32],
    region: Region,
    store: &[u32; 4096],
    n: usize,
) -> usize
    requires { AsksSheets region store.now n at out.old work.old }
    ensures { GivesSheets region store.now at out.old out.new result }
{
    let clinics = highest(Field::Clinic) as u64 + 1;
    let mut next = at;
    for clinic in 0..clinics {
        next = print_clinic(out, next, work, region, store, n, clinic);
    }
    next
}

// The text of a region whose file is accepted: its list and its sheets, or question 13.
fn print_region(out: &mut [u8], work: &mut [u32], region: Region, store: &[u32; 4096]) -> usize
    requires { AsksText region store.now out.old work.old }
    ensures { GivesText region store.now out.old out.new result }
{
    let n = list_region(work, region, store);
    if n == 0 {
        return print_refusal(out, 0, 13);
    }
    let at = print_list(out, 0, &work[0..SECOND], region.v, n);
    print_sheets(out, at, work, region, store, n)
}

// The text of a file, and its byte count. An area that is shorter than the longest text is untouched, and the count is 0.
pub fn print(file: &[u8], out: &mut [u8]) -> usize
    ensures { record { count = result; out = out.new } ≡ print_outcome file.now out.old }
{
    if out.len() < LONGEST {
        return 0;
    }
    let mut store = [FORBIDDEN; 4096];
    match load(file, &mut store, true) {
        Err(refusal) => print_refusal(out, 0, refusal.number()),
        Ok(region) => {
            let mut work = [0; WORK];
            print_region(out, &mut work, region, &store)
        }
    }
}
