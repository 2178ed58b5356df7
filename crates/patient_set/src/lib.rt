// Sets of patients, as 32-bit words: patient p is in the set where bit p is 1.
#![tactic(auto)]

ghost use Rattle.std.specs.Prelude.{◌≡◌, ℕ, ◌<◌, ◌≤◌, ◌&&◌, ◌||◌};
ghost use Rattle.definitions.specs.Basics.{eqb, ltb, not, option_get_or, length, is_empty};
ghost use Rattle.definitions.specs.Parents.{last};
ghost use Rattle.std.specs.Iterator.{YieldsFirst, item_count};
ghost use Rattle.patient_set.specs.Sets.{in_set, members, first, left_in};

#[derive(Clone, Copy, PartialEq, Eq)]
pub struct PatientSet(pub u32);

impl PatientSet {
    // No patient.
    pub const EMPTY: PatientSet = PatientSet(0);

    // All 32 patients.
    pub const FULL: PatientSet = PatientSet(0xffff_ffff);

    // The set of one patient.
    pub fn one(p: usize) -> Self
        requires { p < 32 }
        ensures { (q : ℕ) → in_set result.0 q ≡ eqb q p }
    {
        PatientSet(1u32 << p)
    }

    // The first v patients; a shift by the whole width is not defined, so none is a case of its own.
    pub fn below(v: usize) -> Self
        requires { v ≤ 32 }
        ensures { (q : ℕ) → in_set result.0 q ≡ ltb q v }
    {
        if v == 0 {
            return PatientSet::EMPTY;
        }
        PatientSet(PatientSet::FULL.0 >> (32 - v))
    }

    // The patients of either set.
    pub fn join(self, other: PatientSet) -> Self
        ensures { (q : ℕ) → in_set result.0 q ≡ (in_set self.0 q || in_set other.0 q) }
    {
        PatientSet(self.0 | other.0)
    }

    // The patients of both sets.
    pub fn meet(self, other: PatientSet) -> Self
        ensures { (q : ℕ) → in_set result.0 q ≡ (in_set self.0 q && in_set other.0 q) }
    {
        PatientSet(self.0 & other.0)
    }

    // The patients that are not in the other set: those of both are flipped out.
    pub fn minus(self, other: PatientSet) -> Self
        ensures { (q : ℕ) → in_set result.0 q ≡ (in_set self.0 q && not (in_set other.0 q)) }
    {
        PatientSet(self.0 ^ (self.0 & other.0))
    }

    // The set with patient p.
    pub fn add(self, p: usize) -> Self
        requires { p < 32 }
        ensures { (q : ℕ) → in_set result.0 q ≡ (in_set self.0 q || eqb q p) }
    {
        self.join(PatientSet::one(p))
    }

    // Is patient p in the set?
    pub fn has(self, p: usize) -> bool
        requires { p < 32 }
        ensures { result ≡ in_set self.0 p }
    {
        (self.0 >> p) & 1 == 1
    }

    // Is no patient in the set?
    pub fn is_empty(self) -> bool
        ensures { result ≡ is_empty (members self.0) }
    {
        self == PatientSet::EMPTY
    }

    // The lowest patient; 32 where there is none, as document 01 has it.
    pub fn lowest(self) -> u32
        ensures { result ≡ first 32 (members self.0) }
    {
        u32::trailing_zeros(self.0)
    }

    // The highest patient, 32 where there is none.
    pub fn highest(self) -> u32
        ensures { result ≡ option_get_or (last (members self.0)) 32 }
    {
        if self.is_empty() {
            return 32;
        }
        31 - u32::leading_zeros(self.0)
    }

    // How many patients are in the set.
    pub fn size(self) -> u32
        ensures { result ≡ length (members self.0) }
    {
        u32::count_ones(self.0)
    }

    // The patients of the set, from the lowest up.
    pub fn iter(self) -> Patients
        ensures { left_in result ≡ members self.0 }
    {
        Patients { left: self }
    }
}

// The patients of a set who have not come yet.
#[derive(Drop)]
pub struct Patients {
    left: PatientSet,
}

impl Iterator for Patients {
    type Item = usize;

    ghost next_gives = { YieldsFirst left_in };

    ghost remaining = { item_count left_in };

    // A word minus 1 differs from it in its lowest 1 and below, so the lowest patient goes.
    fn next(&mut self) -> Option<usize> {
        let left = self.left;
        if left.size() == 0 {
            return None;
        }
        self.left = PatientSet(left.0 & (left.0 - 1));
        Some(left.lowest() as usize)
    }
}
