// Whose a record's charges are, by its kind and length, and each of the charges.
ghost use Rattle.std.specs.Prelude.{◌≡◌, ◌+◌, ◌≤◌, ◌<◌, length};
ghost use Rattle.statement.specs.Reading.{long_in, persons_in};
ghost use Rattle.statement.specs.Clauses.{RecordAt};
ghost use Rattle.reader.specs.Fields.{charges_of, uncut_amount, amount_of};
ghost use Rattle.reader.specs.Ranges.{cut_right, amount_right, amounts_right, whose_right};
ghost use Rattle.reader.specs.Reading.{kind4_fit, kind6_fit, party_at, fields_for, whose_at};
ghost use Rattle.reader.specs.declared.Whose.TheVariants.{Of};
ghost use Rattle.reader.specs.Clauses.{FramedAt, ReadableAt, ChargeAsked};

use crate::{Amount, Whose};
use caps::{Cut, NO_AREA, NO_CLASS};
use statement::reading::{
    adults_at, bicycles_at, cap_area_at, cap_class_at, charge_at, children_at, reduction_at,
};
use statement::{CHARGE, HEAD, KIND, MOST_CHARGES, record_size};
use trip::Party;
use units::{Cents, MOST_PRICE};
use wire::four_at;

// The kind of a record that tells charges alone.
pub const BARE_KIND: u16 = 4;

// Length, kind, opening minute, area, kilometres and minutes, which stand before its charges.
const BARE_HEAD: usize = 13;

const MOST_CARRIED: u8 = 10;

// The last area's number.
pub const LAST_AREA: u8 = 31;

// Whose the charges are; or another kind, or a length that fits no party.
#[derive(Clone, Copy)]
pub enum Fit {
    Fits(Whose),
    Unfit,
}

// Of a record of kind 4, by what its length field counts.
fn bare_fit(long: usize) -> Fit
    requires { long ≤ 1024 }
    ensures { result ≡ kind4_fit long }
{
    let body = BARE_HEAD - 2;
    if long < body {
        return Fit::Unfit;
    }
    let charges = (long - body) / CHARGE;
    if (1 <= charges) & (charges <= MOST_CHARGES) & (long == body + CHARGE * charges) {
        Fit::Fits(Whose::Unsaid { charges })
    } else {
        Fit::Unfit
    }
}

// Of a record of kind 6. The three numbers are read only where the body has them.
fn party_fit(statement: &[u8], at: usize, long: usize) -> Fit
    requires { (long ≡ long_in statement.now at) × ((long ≤ 1024) × (at + 2 + long ≤ length statement.now)) }
    ensures { result ≡ kind6_fit statement.now at }
{
    if long < HEAD - 2 {
        return Fit::Unfit;
    }
    let party = Party {
        adults: adults_at(statement, at),
        children: children_at(statement, at),
        bicycles: bicycles_at(statement, at),
    };
    if 2 + long == record_size(party) {
        Fit::Fits(Whose::Of(party))
    } else {
        Fit::Unfit
    }
}

// Whose the charges of the whole record at a place are.
pub fn whose_at(statement: &[u8], at: usize, kind: u16, body: usize) -> Fit
    requires { FramedAt statement.now at kind body }
    ensures { result ≡ whose_at statement.now at }
{
    let long = 2 + body;
    if kind == BARE_KIND {
        bare_fit(long)
    } else if kind == KIND {
        party_fit(statement, at, long)
    } else {
        Fit::Unfit
    }
}

// How many charges there are.
pub fn charges_of(whose: Whose) -> usize
    ensures { result ≡ charges_of whose }
{
    match whose {
        Whose::Unsaid { charges } => charges,
        Whose::Of(party) => 1
            + party.adults as usize
            + party.children as usize
            + party.bicycles as usize,
    }
}

// A charge that nothing was taken off.
fn bare(charge: Cents) -> Amount
    ensures { result ≡ uncut_amount charge.0 }
{
    Amount {
        charge,
        cut: Cut {
            reduction: Cents(0),
            area: NO_AREA,
            class: NO_CLASS,
        },
    }
}

// A person's charge, and what caps took off it.
fn person_at(statement: &[u8], at: usize, i: usize) -> Amount
    requires { RecordAt statement.now at × (i < persons_in statement.now at) }
    ensures { result ≡ amount_of (fields_for statement.now at (Of (party_at statement.now at))) i }
{
    Amount {
        charge: Cents(charge_at(statement, at, i)),
        cut: Cut {
            reduction: Cents(reduction_at(statement, at, i)),
            area: cap_area_at(statement, at, i),
            class: cap_class_at(statement, at, i),
        },
    }
}

// Charge i of the record at a place, counted from 0.
pub fn amount_at(statement: &[u8], at: usize, whose: Whose, i: usize) -> Amount
    requires { ChargeAsked statement.now at whose i }
    ensures { result ≡ amount_of (fields_for statement.now at whose) i }
{
    match whose {
        Whose::Unsaid { charges: _ } => bare(Cents(four_at(
            statement,
            at + BARE_HEAD + CHARGE * i,
        ))),
        Whose::Of(party) => {
            if i < 1 + party.adults as usize + party.children as usize {
                person_at(statement, at, i)
            } else {
                bare(Cents(charge_at(statement, at, i)))
            }
        }
    }
}

// The party is one that a trip can have.
pub fn whose_right(whose: Whose) -> bool
    ensures { result ≡ whose_right whose }
{
    match whose {
        Whose::Unsaid { charges: _ } => true,
        Whose::Of(party) => {
            (party.adults <= MOST_CARRIED)
                & (party.children <= MOST_CARRIED)
                & (party.bicycles <= MOST_CARRIED)
        }
    }
}

// A cap is named exactly where it took something off.
fn cut_right(cut: Cut) -> bool
    ensures { result ≡ cut_right cut }
{
    if cut.reduction.0 == 0 {
        (cut.area == NO_AREA) & (cut.class == NO_CLASS)
    } else {
        (cut.area <= LAST_AREA) & ((cut.class == 1) | (cut.class == 2))
    }
}

// Charge and reduction make a price.
fn amount_right(amount: Amount) -> bool
    ensures { result ≡ amount_right amount }
{
    let charge = amount.charge;
    let cut = amount.cut;
    let reduction = cut.reduction;
    (charge.0 as u64 + reduction.0 as u64 <= MOST_PRICE as u64) & cut_right(cut)
}

// Each of the first `count` charges is in range.
pub fn amounts_right(statement: &[u8], at: usize, whose: Whose, count: usize) -> bool
    requires { ReadableAt statement.now at whose × (count ≤ charges_of whose) }
    ensures { result ≡ amounts_right (fields_for statement.now at whose) count }
{
    for i in 0..count {
        if !amount_right(amount_at(statement, at, whose, i)) {
            return false;
        }
    }
    true
}
