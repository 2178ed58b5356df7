// The writer's call: the region that a C program lends, written as a file.
#![tactic(auto)]

ghost use Rattle.std.specs.Prelude.{◌≡◌};
ghost use Rattle.definitions.specs.Boundary.{write_call};
ghost use Rattle.lent_writer.specs.Answered.{lent_outcome};

use answers::{Counted, checked_number, or_twelve};
use byte_areas::store_result;
use held_region::FORBIDDEN;
use lent_region::{areas_whole, region_lent};
use questions::judge;
use writer::write;

// Everything but the result area, of which it is handed in whether it is long enough.
fn answer_lent(
    patients: &[u8],
    tables: &[u8],
    entries: &[u8],
    m: u64,
    output: &mut [u8],
    room: bool,
) -> Counted
    ensures { record { number = result.number; count = result.count; output = output.new } ≡ lent_outcome patients.now tables.now entries.now m output.old room }
{
    if !areas_whole(patients, tables, entries) {
        return Counted::refused(2);
    }
    let mut store = [FORBIDDEN; 4096];
    let region = region_lent(patients, tables, entries, m, &mut store);
    if !room {
        return Counted::refused(or_twelve(checked_number(judge(region, &store, true))));
    }
    Counted::of(write(region, &store, output))
}

// The result area holds one number: the byte count.
pub fn write_lent(
    patients: &[u8],
    tables: &[u8],
    entries: &[u8],
    m: u64,
    output: &mut [u8],
    res: &mut [u8],
) -> u64
    ensures { record { number = result; output = output.new; result = res.new } ≡ write_call patients.now tables.now entries.now m output.old res.old }
{
    let room = 8 <= res.len();
    let written = answer_lent(patients, tables, entries, m, output, room);
    store_result(res, &[written.count as u64]);
    written.number
}
