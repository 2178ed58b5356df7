// The calls of list and sheet: their costs in eight bytes each, and the row count in the result area.
#![tactic(auto)]

ghost use Rattle.std.specs.Prelude.{◌≡◌};
ghost use Rattle.definitions.specs.Boundary.{list_call, sheet_call};

use answers::Counted;
use byte_areas::{cost_room, store_rows};
use planner::{list, sheet};
use row_writer::WORK;

pub fn list_call(file: &[u8], beds: &mut [u8], costs: &mut [u8], res: &mut [u8]) -> u64
    ensures { record { number = result; beds = beds.new; costs = costs.new; result = res.new } ≡ list_call file.now beds.old costs.old res.old }
{
    let room = cost_room(costs.len(), res.len());
    let mut held = [0u32; 64];
    let mut work = [0u32; WORK];
    let answer = list(file, beds, &mut held[0..room], &mut work);
    let listed = Counted::of(answer);
    store_rows(costs, res, &held, listed.count);
    listed.number
}

// As for list, of the clinic's sheet.
pub fn sheet_call(
    file: &[u8],
    clinic: u64,
    beds: &mut [u8],
    costs: &mut [u8],
    res: &mut [u8],
) -> u64
    ensures { record { number = result; beds = beds.new; costs = costs.new; result = res.new } ≡ sheet_call file.now clinic beds.old costs.old res.old }
{
    let room = cost_room(costs.len(), res.len());
    let mut held = [0u32; 64];
    let mut work = [0u32; WORK];
    let answer = sheet(file, clinic, beds, &mut held[0..room], &mut work);
    let sheeted = Counted::of(answer);
    store_rows(costs, res, &held, sheeted.count);
    sheeted.number
}
