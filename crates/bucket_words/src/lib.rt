// The tables by their highest members, in a form in which a walk finds an entry at once, and what is read of it.
#![tactic(auto)]

ghost use Rattle.std.specs.Prelude.{◌≡◌, ◌<◌};
ghost use Rattle.bucket_words.specs.Words.{beds_at, first_bed_at, bed_end_at, least_at, first_at, start_at, next_at, member_at, stride_at};

// A patient: its count of beds, its permitted beds, from the first one to before the end (all that there are, or the fixed one),
// the sum of the least numbers of its bucket, and the bucket's first term, 64 where it is empty.
#[derive(Clone, Copy)]
pub struct PatientBucket {
    pub beds: u32,
    pub first_bed: u32,
    pub bed_end: u32,
    pub least: u32,
    pub first_term: u32,
}

// A member of a table: the patient, and how far the entry's place moves with its bed.
#[derive(Clone, Copy)]
pub struct TermMember {
    pub patient: u32,
    pub stride: u32,
}

// A table: where its entries begin in the store, the next term of the bucket, 64 after the last, and four members.
#[derive(Clone, Copy)]
pub struct TableTerm {
    pub start: u32,
    pub next: u32,
    pub members: [TermMember; 4],
}

#[derive(Clone, Copy)]
pub struct Buckets {
    pub patients: [PatientBucket; 32],
    pub terms: [TableTerm; 64],
}

impl Buckets {
    // How many beds a patient has.
    pub fn bed_count(&self, s: usize) -> usize
        requires { s < 32 }
        ensures { result ≡ beds_at self.now.patients s }
    {
        self.patients[s].beds as usize
    }

    pub fn first_bed(&self, s: usize) -> usize
        requires { s < 32 }
        ensures { result ≡ first_bed_at self.now.patients s }
    {
        self.patients[s].first_bed as usize
    }

    pub fn bed_end(&self, s: usize) -> usize
        requires { s < 32 }
        ensures { result ≡ bed_end_at self.now.patients s }
    {
        self.patients[s].bed_end as usize
    }

    // The sum of the least numbers of a patient's bucket.
    pub fn least_cost(&self, s: usize) -> usize
        requires { s < 32 }
        ensures { (result ≡ least_at self.now.patients s) × (result < 4_294_967_296) }
    {
        self.patients[s].least as usize
    }

    pub fn first_term(&self, s: usize) -> usize
        requires { s < 32 }
        ensures { result ≡ first_at self.now.patients s }
    {
        self.patients[s].first_term as usize
    }

    // Where a term's entries begin in the store.
    pub fn entry_start(&self, k: usize) -> usize
        requires { k < 64 }
        ensures { result ≡ start_at self.now.terms k }
    {
        self.terms[k].start as usize
    }

    pub fn next_term(&self, k: usize) -> usize
        requires { k < 64 }
        ensures { result ≡ next_at self.now.terms k }
    {
        self.terms[k].next as usize
    }

    // One of a term's four members, and its stride.
    pub fn member(&self, k: usize, j: usize) -> usize
        requires { (k < 64) × (j < 4) }
        ensures { result ≡ member_at self.now.terms k j }
    {
        self.terms[k].members[j].patient as usize
    }

    pub fn stride(&self, k: usize, j: usize) -> usize
        requires { (k < 64) × (j < 4) }
        ensures { result ≡ stride_at self.now.terms k j }
    {
        self.terms[k].members[j].stride as usize
    }
}
