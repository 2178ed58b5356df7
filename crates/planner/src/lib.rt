// The entries.
#![tactic(auto)]

ghost use Rattle.std.specs.Prelude.{◌≡◌};
ghost use Rattle.definitions.specs.Basics.{length};
ghost use Rattle.definitions.specs.Questions.{check_of};
ghost use Rattle.definitions.specs.Outcomes.{list_outcome, sheet_outcome, price_outcome};
ghost use Rattle.definitions.specs.Lookup.{line_outcome, part_of};
ghost use Rattle.answers.specs.Answers.{checked_number, listed_outcome, sheeted_outcome, priced_outcome};

use answers::{ListError, Numbered, PriceError, SheetError};
use clinic_sheet::sheet_loaded;
use held_region::{FORBIDDEN, Refusal};
use line_finder::find_line;
use reader::load;
use region_answers::{list_loaded, price_region};

// Questions 1 to 10.
pub fn check(file: &[u8]) -> Result<(), Refusal>
    ensures { checked_number result ≡ check_of file.now }
{
    let mut store = [FORBIDDEN; 4096];
    load(file, &mut store, true)?;
    Ok(())
}

// Questions 1 to 10, 12 and 13, then the list: how many rows were written.
#[tactic(auto, using(crate::proofs::Refused::refused_list))]
pub fn list(
    file: &[u8],
    beds: &mut [u8],
    costs: &mut [u32],
    work: &mut [u32],
) -> Result<usize, ListError>
    ensures { listed_outcome result beds.new costs.new work.new ≡ list_outcome file.now beds.old costs.old work.old }
{
    let mut store = [FORBIDDEN; 4096];
    let region = load(file, &mut store, true)?;
    list_loaded(region, &store, beds, costs, work)
}

// Questions 1 to 10, 11, 12 and 13, then the clinic's sheet: how many rows were written.
#[tactic(auto, using(crate::proofs::Refused::refused_sheet))]
pub fn sheet(
    file: &[u8],
    clinic: u64,
    beds: &mut [u8],
    costs: &mut [u32],
    work: &mut [u32],
) -> Result<usize, SheetError>
    ensures { sheeted_outcome result beds.new costs.new work.new ≡ sheet_outcome file.now clinic beds.old costs.old work.old }
{
    let mut store = [FORBIDDEN; 4096];
    let accepted = load(file, &mut store, true)?;
    sheet_loaded(accepted, &store, clinic, beds, costs, work)
}

// Questions 1 to 10 and 14, then the plan's total, or none where it is forbidden.
#[tactic(auto, using(crate::proofs::Refused::refused_price))]
pub fn price(file: &[u8], plan: &[u8]) -> Result<Option<u64>, PriceError>
    ensures { priced_outcome result ≡ price_outcome file.now plan.now }
{
    let mut store = [FORBIDDEN; 4096];
    let priced = load(file, &mut store, true)?;
    price_region(priced, &store, plan)
}

// Questions 1 to 10 and 21, then the line over the typed members: that part of the file itself. The number goes to a lent place,
// so that a part of the file is handed back on a refusal too: the empty one at its end.
pub fn line<'a>(file: &'a [u8], typed: &[u8], number: &mut u64) -> &'a [u8]
    ensures { record { number = number.new; block = result.ref_ptr.0; place = result.ref_ptr.1; size = length result.now; bytes = result.now } ≡ part_of file.entry.ref_ptr.0 file.entry.ref_ptr.1 file.now (line_outcome file.now typed.now) }
{
    match find_line(file, typed) {
        Ok(part) => {
            *number = 0;
            let start = part.start;
            let end = start + part.size;
            &file[start..end]
        }
        Err(error) => {
            *number = error.number();
            &file[file.len()..]
        }
    }
}
