// The calls of price, line and join, whose result area holds two numbers.
#![tactic(auto)]

ghost use Rattle.std.specs.Prelude.{◌≡◌, ◌++◌};
ghost use Rattle.definitions.specs.Questions.{first_no, asked_by_check, check_of};
ghost use Rattle.definitions.specs.Boundary.{price_call, line_call, join_call};
ghost use Rattle.answers.specs.Rooms.{or_twelve};

use answers::{Numbered, checked_number, or_twelve, price_values};
use byte_areas::{PAIR, store_price, store_result};
use file_answers::join_values;
use joiner::join;
use line_finder::find_line;
use planner::{check, price};

// The number where the result area is too short for two numbers.
fn number_without_room(file: &[u8]) -> u64
    ensures { result ≡ or_twelve (check_of file.now) }
{
    or_twelve(checked_number(check(file)))
}

pub fn price_call(file: &[u8], plan: &[u8], res: &mut [u8]) -> u64
    ensures { record { number = result; result = res.new } ≡ price_call file.now plan.now res.old }
{
    if res.len() < PAIR {
        return number_without_room(file);
    }
    let values = price_values(price(file, plan));
    store_price(res, values.allowed, values.total);
    values.number
}

// The part's start and length, zeros on a refusal.
pub fn line_call(file: &[u8], typed: &[u8], res: &mut [u8]) -> u64
    ensures { record { number = result; result = res.new } ≡ line_call file.now typed.now res.old }
{
    if res.len() < PAIR {
        return number_without_room(file);
    }
    match find_line(file, typed) {
        Ok(part) => {
            store_result(res, &[part.start as u64, part.size as u64]);
            0
        }
        Err(error) => {
            store_result(res, &[0, 0]);
            error.number()
        }
    }
}

// The number of a join whose result area is too short: that of the first file, else that of the second, else 12.
fn join_without_room(first: &[u8], second: &[u8]) -> u64
    ensures { result ≡ or_twelve (first_no (asked_by_check first.now ++ asked_by_check second.now)) }
{
    match check(first) {
        Ok(()) => number_without_room(second),
        Err(refusal) => refusal.number(),
    }
}

// The byte count, and which file the number is about, on a refusal too.
pub fn join_call(first: &[u8], second: &[u8], output: &mut [u8], res: &mut [u8]) -> u64
    ensures { record { number = result; output = output.new; result = res.new } ≡ join_call first.now second.now output.old res.old }
{
    if res.len() < PAIR {
        return join_without_room(first, second);
    }
    let joined = join_values(join(first, second, output));
    store_result(res, &[joined.bytes as u64, joined.which]);
    joined.number
}
