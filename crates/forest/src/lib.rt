// The forest that the patients' parents make: the root of each patient, and the tree of each root.
#![tactic(auto)]

ghost use Rattle.std.specs.Prelude.{◌≡◌, ℕ, ◌<◌, ◌≤◌, ◌&&◌};
ghost use Rattle.definitions.specs.Basics.{List, some, eqb, ltb, get_or};
ghost use Rattle.patient_set.specs.Sets.{in_set};
ghost use Rattle.held_region.specs.Meaning.{optional, said};
ghost use Rattle.held_region.specs.Sound.{ParentsFirst};
ghost use Rattle.forest.specs.Trees.{RootNumbers, root_from};

use held_region::Region;
use patient_set::PatientSet;

// The root of patient s, who has this parent: its own number, or its parent's root.
fn root_number(roots: &[u32; 32], s: usize, parent: Option<u32>) -> u32
    requires { (s < 32) × ((p : ℕ) → optional parent ≡ some p → p < 32) }
    ensures { result ≡ root_from roots.now s (optional parent) }
{
    match parent {
        None => s as u32,
        Some(p) => roots[p as usize],
    }
}

// The root of each patient. A parent's number is smaller, so its root is known first.
pub fn root_numbers(region: Region) -> [u32; 32]
    requires { ParentsFirst region }
    ensures { (store : List ℕ) → RootNumbers (said region store) result }
{
    let mut roots = [0u32; 32];
    for s in 0..region.v {
        let root = root_number(&roots, s, region.patients[s].parent);
        roots[s] = root;
    }
    roots
}

// The patients with this root.
pub fn tree(roots: &[u32; 32], v: usize, k: usize) -> PatientSet
    requires { v ≤ 32 }
    ensures { (q : ℕ) → in_set result.0 q ≡ (ltb q v && eqb (get_or roots.now q 0) k) }
{
    let mut set = PatientSet::EMPTY;
    for s in 0..v {
        if roots[s] as usize == k {
            set = set.add(s);
        }
    }
    set
}
