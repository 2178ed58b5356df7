// From the bytes of a file to the held region and its store: questions 1 to 4, then those that what is held answers.
#![tactic(auto)]

ghost use Rattle.reader.specs.Loading.{FileRead, LoadedFrom};

use held_region::{Refusal, Region};
use layout::lay_out;
use limits::{Field, within};
use line_reader::checksum_of;
use questions::judge;

// Questions 1 to 4, each put to the whole file before the next. The entries go to the store, whatever it held, as far as they are read.
pub fn read(file: &[u8], store: &mut [u32; 4096]) -> Result<Region, Refusal>
    ensures { FileRead file.now result store.new }
{
    if !within(Field::FileLength, file.len()) {
        return Err(Refusal::TooLong);
    }
    let laid = lay_out(file, store).ok_or(Refusal::Layout)?;
    if laid.patients.count != laid.v as usize {
        return Err(Refusal::Counts);
    }
    if laid.tables.count != laid.t as usize {
        return Err(Refusal::Counts);
    }
    if checksum_of(&file[..laid.end]) != laid.sum {
        return Err(Refusal::Sum);
    }
    let patients = laid.patients.first;
    let tables = laid.tables.first;
    Ok(Region {
        v: laid.v as usize,
        t: laid.t as usize,
        m: laid.m as usize,
        patients,
        tables,
    })
}

// Questions 1 to 10, with or without those of parents.
pub fn load(file: &[u8], store: &mut [u32; 4096], parents: bool) -> Result<Region, Refusal>
    ensures { LoadedFrom parents file.now result store.new }
{
    let region = read(file, store)?;
    judge(region, store, parents)?;
    Ok(region)
}
