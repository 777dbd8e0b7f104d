// The refusals from 4 on by their names. Their order is the table's, which `decide` follows, and where 6 stands twice, 17 before 10 and 22 behind
// it; 13 is a posting's alone.
ghost use Rattle.std.specs.Prelude.{◌≡◌};
ghost use Rattle.deciding.specs.Refusals.{refusal};

#[derive(Clone, Copy)]
pub enum Refusal {
    UnsoundBook,
    NoTrip,
    WrongParty,
    WrongStamp,
    WrongOrder,
    Mistap,
    TooEarly,
    NoEdition,
    UnknownStop,
    NoFirstClass,
    FullWindow,
    NoRoom,
    OtherRecord,
}

// The number that a refusal is given under.
pub fn number(why: Refusal) -> u8
    ensures { result ≡ refusal why }
{
    match why {
        Refusal::UnsoundBook => 4,
        Refusal::NoTrip => 5,
        Refusal::WrongParty => 6,
        Refusal::WrongStamp => 8,
        Refusal::WrongOrder => 9,
        Refusal::Mistap => 17,
        Refusal::TooEarly => 10,
        Refusal::NoEdition => 22,
        Refusal::UnknownStop => 7,
        Refusal::NoFirstClass => 6,
        Refusal::FullWindow => 11,
        Refusal::NoRoom => 12,
        Refusal::OtherRecord => 13,
    }
}
