// The cheapest plans of a region, found tree by tree.
#![tactic(auto)]

pub mod walk;

ghost use Rattle.patient_set.specs.Sets.{members};
ghost use Rattle.search.specs.Trees.{LeastSummed, AsksStart, GivesStart, AsksTreeOf, GivesTreeOf, AsksTrees, GivesTrees, AsksRegion, GivesRegion};

use bucket_words::Buckets;
use buckets::prepare;
use forest::{root_numbers, tree};
use held_region::Region;
use kept_places::moves_of;
use packed_rows::pack;
use patient_set::PatientSet;
use pricing::Plan;
use row_list::set_row;
use row_sums::{SECOND, THIRD, combine};
use walk::{Head, Sources, walk};

// The sum of the least numbers of the buckets of a set.
fn least_sum(buckets: &Buckets, set: PatientSet) -> u64
    ensures { LeastSummed buckets.now.patients (members set.0) result }
{
    let mut n: u64 = 0;
    for s in set.iter() {
        n += buckets.least_cost(s) as u64;
    }
    n
}

// The list of nobody: one row, which costs nothing.
fn start_list(work: &mut [u32], v: usize)
    requires { AsksStart v work.old }
    ensures { GivesStart v work.old work.new }
{
    let row = pack(0, &[0u8; 32], v);
    set_row(&mut work[0..SECOND], 0, row);
}

// The list with one more tree: a walk lists the tree's rows, and the two lists are combined.
fn add_tree(work: &mut [u32], sources: &Sources<'_>, n: usize, set: PatientSet) -> usize
    requires { AsksTreeOf sources.now n work.old set.0 }
    ensures { GivesTreeOf sources.now n work.old set.0 work.new result }
{
    let plan = Plan::new();
    let head = Head {
        left: set,
        placed: plan.len,
        cost: 0,
        bound: least_sum(sources.buckets, set),
    };
    let mut places = [0u32; 64];
    let found = walk(
        &mut work[SECOND..THIRD],
        &mut places,
        sources,
        &plan.beds,
        0,
        head,
    );
    combine(work, sources.m, n, found)
}

// The list of all trees, one after the other.
fn list_trees(work: &mut [u32], sources: &Sources<'_>, roots: &[u32; 32]) -> usize
    requires { AsksTrees sources.now roots.now work.old }
    ensures { GivesTrees sources.now roots.now work.old work.new result }
{
    start_list(work, sources.v);
    let mut n: usize = 1;
    for k in 0..sources.v {
        let set = tree(roots, sources.v, k);
        if !set.is_empty() {
            n = add_tree(work, sources, n, set);
        }
    }
    n
}

// The list of a region, left as the list so far of the work area.
pub fn list_region(work: &mut [u32], region: Region, store: &[u32; 4096]) -> usize
    requires { AsksRegion region store.now work.old }
    ensures { GivesRegion region store.now work.old work.new result }
{
    let buckets = prepare(region, store);
    let roots = root_numbers(region);
    let moves = moves_of(&buckets, region.t);
    let sources = Sources {
        buckets: &buckets,
        moves: &moves,
        entries: store,
        v: region.v,
        m: region.m,
    };
    list_trees(work, &sources, &roots)
}
