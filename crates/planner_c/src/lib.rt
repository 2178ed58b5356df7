// The calls from C: the proved entries on numbers and byte areas.
#![tactic(auto)]

ghost use Rattle.std.specs.Prelude.{◌≡◌};
ghost use Rattle.definitions.specs.Boundary.{check_call, list_call, sheet_call, price_call, write_call, line_call, join_call, parents_call, read_call, version_number};

use answers::checked_number;
use lent_reader::read_call;
use lent_writer::write_lent;
use pair_calls::{join_call, line_call, price_call};
use parent_maker::parents_call;
use planner::check;
use row_calls::{list_call, sheet_call};

#[unsafe(no_mangle)]
pub extern "C" fn rigbasen_check(file: &[u8]) -> u64
    ensures { result ≡ check_call file.now }
{
    let answer = check(file);
    checked_number(answer)
}

// The result area holds one number: the row count.
#[unsafe(no_mangle)]
pub extern "C" fn rigbasen_list(
    file: &[u8],
    beds: &mut [u8],
    costs: &mut [u8],
    res: &mut [u8],
) -> u64
    ensures { record { number = result; beds = beds.new; costs = costs.new; result = res.new } ≡ list_call file.now beds.old costs.old res.old }
{
    list_call(file, beds, costs, res)
}

// As for list, of the clinic's sheet.
#[unsafe(no_mangle)]
pub extern "C" fn rigbasen_sheet(
    file: &[u8],
    clinic: u64,
    beds: &mut [u8],
    costs: &mut [u8],
    res: &mut [u8],
) -> u64
    ensures { record { number = result; beds = beds.new; costs = costs.new; result = res.new } ≡ sheet_call file.now clinic beds.old costs.old res.old }
{
    sheet_call(file, clinic, beds, costs, res)
}

// The result area holds two numbers: allowed and the total.
#[unsafe(no_mangle)]
pub extern "C" fn rigbasen_price(file: &[u8], plan: &[u8], res: &mut [u8]) -> u64
    ensures { record { number = result; result = res.new } ≡ price_call file.now plan.now res.old }
{
    price_call(file, plan, res)
}

// The result area holds two numbers: the start and the length of the line in the file.
#[unsafe(no_mangle)]
pub extern "C" fn rigbasen_line(file: &[u8], typed: &[u8], res: &mut [u8]) -> u64
    ensures { record { number = result; result = res.new } ≡ line_call file.now typed.now res.old }
{
    line_call(file, typed, res)
}

// A region that is lent in three areas, written as a file. The result area holds one number: the byte count.
#[unsafe(no_mangle)]
pub extern "C" fn rigbasen_write(
    patients: &[u8],
    tables: &[u8],
    entries: &[u8],
    m: u64,
    output: &mut [u8],
    res: &mut [u8],
) -> u64
    ensures { record { number = result; output = output.new; result = res.new } ≡ write_call patients.now tables.now entries.now m output.old res.old }
{
    write_lent(patients, tables, entries, m, output, res)
}

// What a file says, in the three areas that write takes. The result area holds four numbers: V, T, m and how many entries there are.
#[unsafe(no_mangle)]
pub extern "C" fn rigbasen_read(
    file: &[u8],
    patients: &mut [u8],
    tables: &mut [u8],
    entries: &mut [u8],
    res: &mut [u8],
) -> u64
    ensures { record { number = result; patients = patients.new; tables = tables.new; entries = entries.new; result = res.new } ≡ read_call file.now patients.old tables.old entries.old res.old }
{
    read_call(file, patients, tables, entries, res)
}

// Two files put together into one. The result area holds two numbers: the byte count, and which file the number is about (0 neither, 1 the first, 2 the second).
#[unsafe(no_mangle)]
pub extern "C" fn rigbasen_join(
    first: &[u8],
    second: &[u8],
    output: &mut [u8],
    res: &mut [u8],
) -> u64
    ensures { record { number = result; output = output.new; result = res.new } ≡ join_call first.now second.now output.old res.old }
{
    join_call(first, second, output, res)
}

// The same file with the parents that its tables make. The result area holds one number: the byte count.
#[unsafe(no_mangle)]
pub extern "C" fn rigbasen_parents(file: &[u8], output: &mut [u8], res: &mut [u8]) -> u64
    ensures { record { number = result; output = output.new; result = res.new } ≡ parents_call file.now output.old res.old }
{
    parents_call(file, output, res)
}

// The library's version, by which a caller sees whether its header belongs to it.
#[unsafe(no_mangle)]
pub extern "C" fn rigbasen_version() -> u64
    ensures { result ≡ version_number }
{
    1_008_000
}
