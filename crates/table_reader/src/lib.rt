// One table line: its list of members, its list of entries, which go to the store, and the line.
#![tactic(auto)]

ghost use Rattle.std.specs.Prelude.{◌+◌, [], ◌∷◌};
ghost use Rattle.table_reader.specs.TableReading.{MembersRead, Adds, EntriesRead, TableRead};

use held_region::Table;
use scanner::{
    ItemStep, code_of, form_end_at, form_start_at, hyphen_or_number_at, item_step, number_at,
    open_at, space_at,
};

// The first four members of a list, how many there are, and the place after it.
#[derive(Clone, Copy)]
pub struct Members {
    pub first: [u32; 4],
    pub count: usize,
    pub next: usize,
}

// The members behind the fourth are counted, so that a later question can refuse them.
pub fn members_at(line: &[u8], at: usize) -> Option<Members>
    ensures { MembersRead line.now at result }
{
    let mut first = [0; 4];
    let mut count = 0;
    let mut i = open_at(line, at)?;
    // What stands behind an item says whether another one comes.
    loop {
        let (member, end) = number_at(line, i)?;
        if count < 4 {
            first[count] = member;
        }
        match item_step(line, end)? {
            ItemStep::Next(next) => {
                count += 1;
                i = next;
            }
            ItemStep::Closed(next) => {
                return Some(Members {
                    first,
                    count: count + 1,
                    next,
                });
            }
        }
    }
}

// A code at its place in the store. Behind the store's end nothing is stored.
#[tactic(auto, using(crate::proofs::HeldTables::adds_one, crate::proofs::HeldTables::adds_full))]
fn put(store: &mut [u32; 4096], used: usize, count: usize, code: u32)
    ensures { Adds (used + count) store.old store.new (code ∷ []) }
{
    let at = used.saturating_add(count);
    if at < store.len() {
        store[at] = code;
    }
}

// How many entries a list has, and the place after it. They go to the store behind those that are used, as far as there is room.
pub fn entries_at(
    line: &[u8],
    at: usize,
    store: &mut [u32; 4096],
    used: usize,
) -> Option<(usize, usize)>
    ensures { EntriesRead line.now at used store.old store.new result }
{
    let mut count = 0;
    let mut i = open_at(line, at)?;
    // What stands behind an item says whether another one comes.
    loop {
        let (entry, end) = hyphen_or_number_at(line, i)?;
        put(store, used, count, code_of(entry));
        match item_step(line, end)? {
            ItemStep::Next(next) => {
                count += 1;
                i = next;
            }
            ItemStep::Closed(next) => return Some((count + 1, next)),
        }
    }
}

// The table of a whole line, with nothing after it. Its entries may be stored before a fault is found behind them.
pub fn table_line(line: &[u8], store: &mut [u32; 4096], used: usize) -> Option<Table>
    ensures { TableRead line.now used store.old store.new result }
{
    let start = form_start_at(line, 0, b"cost")?;
    let a = space_at(line, start)?;
    let members = members_at(line, a)?;
    let b = space_at(line, members.next)?;
    let (entries, c) = entries_at(line, b, store, used)?;
    let end = form_end_at(line, c)?;
    if end < line.len() {
        return None;
    }
    let first = members.first;
    Some(Table {
        first,
        members: members.count,
        entries,
    })
}
