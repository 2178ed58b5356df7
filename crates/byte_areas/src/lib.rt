// The numbers that the calls from C find and leave in lent byte areas, eight bytes each, lowest first, and the room for them.
#![tactic(auto)]

ghost use Rattle.std.specs.Prelude.{◌≡◌, ◌+◌, ◌*◌, ◌≤◌, ◌<◌, ◌∷◌};
ghost use Rattle.definitions.specs.Basics.{[], cond, length, take, sets};
ghost use Rattle.definitions.specs.Outcomes.{written};
ghost use Rattle.definitions.specs.Boundary.{bytes_of, number_at, result_after};
ghost use Rattle.byte_areas.specs.Room.{cost_room};

use limits::{Field, highest};

// The number that stands for none in what C lends and is given.
pub const NONE: u64 = u64::MAX;

// How many costs the entry may leave, and the entry asks question 12 of them: those that fit the lent area, none where the result area is too short.
pub fn cost_room(costs: usize, res: usize) -> usize
    ensures { result ≡ cost_room costs res }
{
    if res < 8 {
        0
    } else {
        highest(Field::PlansWanted).min(costs / 8)
    }
}

// Number i of an area.
pub fn number_at(area: &[u8], i: usize) -> u64
    requires { i * 8 + 8 ≤ length area.now }
    ensures { result ≡ number_at area.now i }
{
    let mut bytes = [0; 8];
    bytes.copy_from_slice(&area[i * 8..i * 8 + 8]);
    u64::from_le_bytes(bytes)
}

// One number, from place `at` on.
pub fn store_number(area: &mut [u8], at: usize, n: u64)
    requires { at + 8 ≤ length area.old }
    ensures { area.new ≡ sets area.old at (bytes_of 8 n) }
{
    area[at..at + 8].copy_from_slice(&n.to_le_bytes());
}

// Numbers one behind the other, from number `at` of the area on.
pub fn store_numbers(area: &mut [u8], at: usize, numbers: &[u64])
    requires { (at + length numbers.now) * 8 ≤ length area.old }
    ensures { area.new ≡ written at 8 (bytes_of 8) numbers.now area.old }
{
    for i in 0..numbers.len() {
        store_number(area, (at + i) * 8, numbers[i]);
    }
}

// How many bytes a result of two numbers has, and one of four.
pub const PAIR: usize = 16;

pub const FOUR: usize = 32;

// A result of N numbers: the row count of list and sheet, the byte count of a writer, price's two, the start and the length of line's part,
// the four counts of what was read. A shorter area is untouched.
pub fn store_result<const N: usize>(res: &mut [u8], numbers: &[u64; N])
    ensures { res.new ≡ result_after numbers.now res.old }
{
    if res.len() / 8 < N {
        return;
    }
    for i in 0..N {
        store_number(res, i * 8, numbers[i]);
    }
}

// The result of price: allowed is 1, not allowed 0; then the total.
pub fn store_price(res: &mut [u8], allowed: bool, total: u64)
    ensures { res.new ≡ result_after (cond allowed 1 0 ∷ total ∷ []) res.old }
{
    store_result(res, &[u64::from(allowed), total]);
}

// The first n of the costs that the proved entry left.
fn store_costs(costs: &mut [u8], held: &[u32; 64], n: usize)
    requires { (n ≤ 64) × (n * 8 ≤ length costs.old) }
    ensures { costs.new ≡ written 0 8 (bytes_of 8) (take n held.now) costs.old }
{
    for i in 0..n {
        store_number(costs, i * 8, u64::from(held[i]));
    }
}

// What list and sheet leave: the costs, and the row count.
pub fn store_rows(costs: &mut [u8], res: &mut [u8], held: &[u32; 64], n: usize)
    requires { (n ≤ 64) × (n * 8 ≤ length costs.old) }
    ensures { (costs.new ≡ written 0 8 (bytes_of 8) (take n held.now) costs.old) × (res.new ≡ result_after (n ∷ []) res.old) }
{
    store_costs(costs, held, n);
    store_result(res, &[n as u64]);
}
