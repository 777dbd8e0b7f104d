// Charge records read off a statement that others may have damaged: kind 6, which settling writes, and kind 4, which it wrote before what
// caps took off was told. Nothing is asked of the bytes or of the place: what is no record in range is refused, by one of three numbers.
//
// records.rt   one record at a place: the refusals in their order, or its fields
// charges.rt   whose a record's charges are, and each of them
// fields.rt    a record's fields as plain bytes, for callers that take no struct
#![tactic(auto)]

use caps::Cut;
use trip::Party;
use units::{Cents, Km, Minutes};

pub mod charges;
pub mod fields;
pub mod records;

// What stands in a record of either kind before its charges: the window's opening, the ride's area, its kilometres and its minutes.
#[derive(Clone, Copy)]
pub struct Head {
    pub opening: Minutes,
    pub area: u8,
    pub km: Km,
    pub minutes: Minutes,
}

// Whose a record's charges are. Kind 4 has so many and does not say; in kind 6 they are a party's: account holder, adults, children, bicycles.
#[derive(Clone, Copy)]
pub enum Whose {
    Unsaid { charges: usize },
    Of(Party),
}

// One charge, and what caps took off it: nothing, and no cap named, for a bicycle and in a record of kind 4.
#[derive(Clone, Copy)]
pub struct Amount {
    pub charge: Cents,
    pub cut: Cut,
}

// What reading at a place comes to: a refusal's number, 14 to 16; or a record, with its bytes, so that the next stands so far behind it.
#[derive(Clone, Copy)]
pub enum Read {
    Refused(u8),
    Record {
        size: usize,
        head: Head,
        whose: Whose,
    },
}
