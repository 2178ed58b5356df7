// Depth-first branch and bound over the patients of a set, the lowest first, beds rising.
ghost use Rattle.std.specs.Prelude.{◌≡◌, set};
ghost use Rattle.patient_set.specs.Sets.{members};
ghost use Rattle.search.specs.Walks.{branch_at, AsksRest, GivesRest, is_past, AsksCut, AsksWalk, GivesWalk};

use bucket_words::Buckets;
use kept_places::{Moves, move_places};
use packed_rows::pack;
use patient_set::PatientSet;
use pricing::Plan;
use pricing::beds::{bed_cost, bed_costs};
use row_list::{cost_at, insert, is_past};

// What a walk reads: the buckets, the moves of the tables' entries and the entries, how many patients there are, and how many rows are kept.
#[derive(Clone, Copy)]
pub struct Sources<'a> {
    pub buckets: &'a Buckets,
    pub moves: &'a Moves,
    pub entries: &'a [u32; 4096],
    pub v: usize,
    pub m: usize,
}

// The head of a branch: who is left, how many are placed, the cost so far, and a lower bound of what the rest costs.
#[derive(Clone, Copy)]
pub struct Head {
    pub left: PatientSet,
    pub placed: usize,
    pub cost: u64,
    pub bound: u64,
}

// What is left of a head without its lowest patient: the others, and the bound without the patient's bucket.
fn rest_of(buckets: &Buckets, left: PatientSet, bound: u64, s: usize) -> (PatientSet, u64)
    requires { AsksRest buckets.now.patients bound s }
    ensures { GivesRest buckets.now.patients (members left.0) bound s result }
{
    let others = left.minus(PatientSet::one(s));
    (others, bound - buckets.least_cost(s) as u64)
}

// Is the list full, and a row of this cost, with the plan so far and one more bed, not before its last? Only at equal costs the beds are looked at.
fn is_cut(
    list: &[u32],
    plan: Plan,
    v: usize,
    n: usize,
    m: usize,
    cost: u64,
    s: usize,
    bed: u8,
) -> bool
    requires { AsksCut v n m list.now plan s bed }
    ensures { result ≡ is_past v n m list.now cost (set plan.beds s bed) }
{
    if n < m {
        return false;
    }
    let last = cost_at(list, m - 1);
    if cost < last {
        return false;
    }
    if last < cost {
        return true;
    }
    let longer = plan.place(s, bed);
    let row = pack(cost, &longer.beds, v);
    is_past(list, n, m, row)
}

// Adds the rows of the branch to the list: the m cheapest are kept. Each permitted bed that is not cut gives a longer plan, whose beds are lent to the branch below.
// The place of each table's entry goes along: a bed that is gone into moves it, and who is left again has bed 0.
pub fn walk(
    list: &mut [u32],
    places: &mut [u32; 64],
    sources: &Sources<'_>,
    beds: &[u8; 32],
    n: usize,
    head: Head,
) -> usize
    requires { AsksWalk sources.now n list.old places.old (branch_at head beds.now) }
    ensures { GivesWalk sources.now n list.old (branch_at head beds.now) list.new places.new result }
{
    let v = sources.v;
    let m = sources.m;
    let left = head.left;
    if left.is_empty() {
        let row = pack(head.cost, beds, v);
        return insert(list, n, m, row);
    }
    let s = left.lowest() as usize;
    let first = sources.buckets.first_bed(s);
    let end = sources.buckets.bed_end(s);
    let (others, bound) = rest_of(sources.buckets, left, head.bound, s);
    let mut sums = [0u64; 16];
    bed_costs(
        &mut sums,
        sources.buckets,
        sources.entries,
        places,
        s,
        first,
        end,
    );
    let plan = Plan {
        beds: *beds,
        len: head.placed,
    };
    let mut found = n;
    // The bed of s that the places count.
    let mut counted = 0;
    for bed in first..end {
        if let Some(cost) = bed_cost(&sums, bed) {
            let sum = head.cost + cost;
            let least = sum + bound;
            if !is_cut(list, plan, v, found, m, least, s, bed as u8) {
                let longer = plan.place(s, bed as u8);
                let below = Head {
                    left: others,
                    placed: longer.len,
                    cost: sum,
                    bound: bound,
                };
                move_places(places, sources.moves, s, counted, bed);
                counted = bed;
                found = walk(list, places, sources, &longer.beds, found, below);
            }
        }
    }
    move_places(places, sources.moves, s, counted, 0);
    found
}
