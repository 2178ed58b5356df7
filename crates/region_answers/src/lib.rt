// What list and price answer of the region of an accepted file.
#![tactic(auto)]

ghost use Rattle.theorems.specs.Accepted.{Accepted};
ghost use Rattle.held_region.specs.Meaning.{said};
ghost use Rattle.region_answers.specs.Prices.{RegionPriced};
ghost use Rattle.region_answers.specs.Lists.{RegionListed};

use answers::{ListError, PriceError};
use buckets::prepare;
use held_region::Region;
use pricing::{plan_fits, plan_of, total};
use row_writer::{clear, long_enough, write_rows};
use search::list_region;

// Question 14, then the plan's total, or none where it is forbidden.
pub fn price_region(
    region: Region,
    store: &[u32; 4096],
    plan: &[u8],
) -> Result<Option<u64>, PriceError>
    requires { Accepted (said region store.now) }
    ensures { RegionPriced (said region store.now) plan.now result }
{
    let buckets = prepare(region, store);
    if !plan_fits(&buckets, region.v, plan) {
        return Err(PriceError::Misfit);
    }
    Ok(total(&buckets, store, region.v, plan_of(plan)))
}

// Questions 12 and 13, then the list, written out. The work area is cleared behind it.
pub fn list_loaded(
    region: Region,
    store: &[u32; 4096],
    beds: &mut [u8],
    costs: &mut [u32],
    work: &mut [u32],
) -> Result<usize, ListError>
    requires { Accepted (said region store.now) }
    ensures { RegionListed (said region store.now) beds.old costs.old work.old result beds.new costs.new work.new }
{
    if !long_enough(region.v, region.m, beds.len(), costs.len(), work.len()) {
        return Err(ListError::Short);
    }
    let n = list_region(work, region, store);
    write_rows(work, region.v, n, beds, costs);
    clear(work);
    if n == 0 {
        return Err(ListError::Nothing);
    }
    Ok(n)
}
