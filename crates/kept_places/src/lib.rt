// The places of the tables' entries, kept while beds change: for each patient the tables that move with its bed.
#![tactic(auto)]

ghost use Rattle.std.specs.Prelude.{◌≡◌, ◌<◌};
ghost use Rattle.bucket_words.specs.Kept.{low_stride, Bounded};
ghost use Rattle.kept_places.specs.Moves.{move_at, Linked, AsksMove, GivesMove};
ghost use Rattle.kept_places.specs.Steps.{AsksAdd, Added, AsksTerm};

use bucket_words::Buckets;

// How far a term's entry moves with the bed of one of its members, and the place of that patient's next move, 192 after the last.
#[derive(Clone, Copy)]
pub struct Move {
    pub term: u16,
    pub stride: u16,
    pub next: u16,
}

// The place of each patient's first move, and the moves: three for each term.
#[derive(Clone, Copy)]
pub struct Moves {
    pub first: [u16; 32],
    pub all: [Move; 192],
}

// The end of a patient's moves: no move has this place.
const NO_MOVE: u16 = 192;

// The stride of a member behind which another one comes; 0 for the highest, whose beds lie side by side, and where there is no member.
fn low_stride(buckets: &Buckets, k: usize, j: usize) -> usize
    requires { (k < 64) × (j < 3) }
    ensures { result ≡ low_stride buckets.now.terms k j }
{
    if buckets.stride(k, j + 1) == 0 {
        return 0;
    }
    buckets.stride(k, j)
}

// A move in front of its patient's others.
fn add_move(moves: &mut Moves, s: usize, k: usize, by: usize, at: usize)
    requires { AsksAdd s k by at moves.old }
    ensures { Added s k by at moves.old moves.new }
{
    moves.all[at] = Move {
        term: k as u16,
        stride: by as u16,
        next: moves.first[s],
    };
    moves.first[s] = at as u16;
}

// The moves of a term's members, the last of them first.
fn add_moves(moves: &mut Moves, buckets: &Buckets, k: usize)
    requires { AsksTerm buckets.now.terms k moves.old }
    ensures { Linked buckets.now.terms (move_at k 0) moves.new }
{
    for j in (0..3).rev() {
        let by = low_stride(buckets, k, j);
        if 0 < by {
            add_move(moves, buckets.member(k, j), k, by, k * 3 + j);
        }
    }
}

// The moves of all patients: the first t terms say something.
pub fn moves_of(buckets: &Buckets, t: usize) -> Moves
    requires { Bounded buckets.now.terms t }
    ensures { Linked buckets.now.terms 0 result }
{
    let none = Move {
        term: 0,
        stride: 0,
        next: NO_MOVE,
    };
    let mut moves = Moves {
        first: [NO_MOVE; 32],
        all: [none; 192],
    };
    for k in (0..t).rev() {
        add_moves(&mut moves, buckets, k);
    }
    moves
}

// A patient's bed changes: the place of each table that it moves is adjusted, and no other.
pub fn move_places(places: &mut [u32; 64], moves: &Moves, s: usize, old: usize, new: usize)
    requires { AsksMove moves.now s old new places.old }
    ensures { GivesMove moves.now s old new places.old places.new }
{
    // A patient's moves are linked: where the next one stands, this one says.
    let mut at = moves.first[s] as usize;
    while at < 192 {
        let step = moves.all[at];
        let k = step.term as usize;
        let by = step.stride as usize;
        places[k] = (places[k] as usize + by * new - by * old) as u32;
        at = step.next as usize;
    }
}
