// The limits stand once: a table of lowest and highest per field.
#![tactic(auto)]

ghost use Rattle.std.specs.Prelude.{◌≡◌};
ghost use Rattle.definitions.specs.Limits.{limits, within as isWithin};
ghost use Rattle.limits.specs.Fields.{field_of, limit_of};

// The lowest and the highest value of a field.
#[derive(Clone, Copy)]
struct Limit(usize, usize);

#[derive(Clone, Copy)]
pub enum Field {
    FileLength,
    DigitCount,
    PatientCount,
    TableCount,
    PlansWanted,
    Clinic,
    BedCount,
    MemberCount,
    EntryCount,
    Entry,
}

// The most digits of a number, by a name: a loop over digits whose end is known when it is compiled is faster.
pub const DIGITS: usize = 7;

const LIMITS: [Limit; 10] = [
    Limit(0, 65_535),
    Limit(1, DIGITS),
    Limit(1, 32),
    Limit(0, 64),
    Limit(1, 64),
    Limit(0, 15),
    Limit(1, 16),
    Limit(1, 4),
    Limit(0, 4_096),
    Limit(0, 1_000_000),
];

// A field's place in the table is its number, from 0 on.
fn limit_of(field: Field) -> Limit
    ensures { result ≡ limit_of field }
{
    LIMITS[field as usize]
}

// Is a value from its field's lowest to its highest?
pub fn within(field: Field, value: usize) -> bool
    ensures { result ≡ isWithin (field_of field) value }
{
    let limit = limit_of(field);
    limit.0 <= value && value <= limit.1
}

pub fn highest(field: Field) -> usize
    ensures { result ≡ (limits (field_of field)).highest }
{
    let limit = limit_of(field);
    limit.1
}
