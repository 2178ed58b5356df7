// Plans, and what they cost.
#![tactic(auto)]

pub mod beds;

ghost use Rattle.std.specs.Prelude.{◌≡◌, ◌+◌, ◌<◌, ◌≤◌, set, length, take};
ghost use Rattle.definitions.specs.Basics.{replicate, below, every};
ghost use Rattle.buckets.specs.Terms.{place_at};
ghost use Rattle.pricing.specs.Pricing.{Reads, Asks, Gives, AsksAll, GivesTables, GivesAll, permitted_at, bed_permitted, PlanAsked};

use bucket_words::Buckets;
use held_region::FORBIDDEN;

// A plan, step by step: the beds of the patients placed so far, bed 0 for all others, and how many are placed.
#[derive(Clone, Copy)]
pub struct Plan {
    pub beds: [u8; 32],
    pub len: usize,
}

impl Plan {
    // Nobody is placed.
    pub fn new() -> Plan
        ensures { (result.beds ≡ replicate 32 0) × (result.len ≡ 0) }
    {
        Plan {
            beds: [0u8; 32],
            len: 0,
        }
    }

    // The longer plan, with a bed for one more patient.
    pub fn place(mut self, patient: usize, bed: u8) -> Plan
        requires { (patient < 32) × (self.len < 32) }
        ensures { (result.beds ≡ set self.beds patient bed) × (result.len ≡ self.len + 1) }
    {
        self.beds[patient] = bed;
        self.len += 1;
        self
    }
}

// The place in the store of a term's entry for a plan.
fn entry_place(buckets: &Buckets, k: usize, beds: &[u8; 32]) -> usize
    requires { Reads buckets.now.terms k }
    ensures { result ≡ place_at buckets.now.terms k beds.now }
{
    let mut place = buckets.entry_start(k);
    for j in 0..4 {
        let s = buckets.member(k, j);
        place += beds[s] as usize * buckets.stride(k, j);
    }
    place
}

// What the tables of a patient's bucket cost together, none where an entry is forbidden.
fn bucket_cost(buckets: &Buckets, entries: &[u32; 4096], s: usize, beds: &[u8; 32]) -> Option<u64>
    requires { Asks entries.now buckets.now.patients buckets.now.terms s beds.now }
    ensures { Gives entries.now buckets.now.patients buckets.now.terms s beds.now result }
{
    let mut sum: u64 = 0;
    // The terms of a bucket are linked: which one is next, each says.
    let mut k = buckets.first_term(s);
    while k < 64 {
        let at = entry_place(buckets, k, beds);
        let entry = entries[at];
        if entry == FORBIDDEN {
            return None;
        }
        sum += entry as u64;
        k = buckets.next_term(k);
    }
    Some(sum)
}

// What all tables cost together, a bucket after the other, none where an entry is forbidden.
pub fn tables_cost(buckets: &Buckets, entries: &[u32; 4096], v: usize, plan: Plan) -> Option<u64>
    requires { AsksAll entries.now buckets.now.patients buckets.now.terms v plan.beds }
    ensures { GivesTables entries.now buckets.now.patients buckets.now.terms v plan.beds result }
{
    let mut sum: u64 = 0;
    for s in 0..v {
        match bucket_cost(buckets, entries, s, &plan.beds) {
            Some(cost) => sum += cost,
            None => return None,
        }
    }
    Some(sum)
}

// Lies a bed between the patient's first permitted one and their end?
fn is_permitted(buckets: &Buckets, s: usize, bed: usize) -> bool
    requires { s < 32 }
    ensures { result ≡ permitted_at buckets.now.patients s bed }
{
    buckets.first_bed(s) <= bed && bed < buckets.bed_end(s)
}

// Has each patient a permitted bed?
fn keeps_fixed(buckets: &Buckets, v: usize, beds: &[u8; 32]) -> bool
    requires { v ≤ 32 }
    ensures { result ≡ every (bed_permitted buckets.now.patients beds.now) (below v) }
{
    for s in 0..v {
        if !is_permitted(buckets, s, beds[s] as usize) {
            return false;
        }
    }
    true
}

// The total of a plan: where each fixed bed is kept, what the tables cost.
pub fn total(buckets: &Buckets, entries: &[u32; 4096], v: usize, plan: Plan) -> Option<u64>
    requires { AsksAll entries.now buckets.now.patients buckets.now.terms v plan.beds }
    ensures { GivesAll entries.now buckets.now.patients buckets.now.terms v plan.beds result }
{
    if !keeps_fixed(buckets, v, &plan.beds) {
        return None;
    }
    tables_cost(buckets, entries, v, plan)
}

// 14. Are there exactly v beds, each below its patient's count?
pub fn plan_fits(buckets: &Buckets, v: usize, beds: &[u8]) -> bool
    requires { v ≤ 32 }
    ensures { PlanAsked buckets.now.patients v beds.now result }
{
    if beds.len() != v {
        return false;
    }
    for s in 0..v {
        if buckets.bed_count(s) <= beds[s] as usize {
            return false;
        }
    }
    true
}

// The plan with these beds, patient by patient.
pub fn plan_of(beds: &[u8]) -> Plan
    requires { length beds.now ≤ 32 }
    ensures { take (length beds.now) result.beds ≡ beds.now }
{
    let mut plan = Plan::new();
    for s in 0..beds.len() {
        plan = plan.place(s, beds[s]);
    }
    plan
}
