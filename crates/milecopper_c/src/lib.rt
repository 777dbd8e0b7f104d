// What C is offered: the functions of crate milecopper, under the same names and with the same contracts, as a static library for C to link.
#![tactic(auto)]

ghost use Rattle.std.specs.Prelude.{◌≡◌, length};
ghost use Rattle.settle.specs.Outcome.{quoted, settled, Settled, Quoted};
ghost use Rattle.settle.specs.Posting.{posting_of, Posted};
ghost use Rattle.reader.specs.Filling.{filling_of};
ghost use Rattle.milecopper.specs.Clauses.{ReadTo};
ghost use Rattle.milecopper.specs.Tariffs.{tariff_answer};

pub mod members;
pub mod months;
pub mod rolls;

// Checks a tariff file alone, with its one or two editions. Faultless: its length. Else 1 to 3, × 2^32 + the place of the first faulty record,
// as settling under it answers.
#[unsafe(no_mangle)]
pub extern "C" fn milecopper_check_tariff(tariff: &[u8]) -> u64
    ensures { result ≡ tariff_answer tariff.now }
{
    milecopper::milecopper_check_tariff(tariff)
}

// Settles a trip: its charge records, one or two, go to the start of the statement, and the book is brought up to date.
// Accepted: the number of bytes written, at most 532. Refused: the refusal's number × 2^32 + its place, and neither slice is touched.
#[unsafe(no_mangle)]
pub extern "C" fn milecopper_settle(
    tariff: &[u8],
    book: &mut [u8],
    trip: &[u8],
    statement: &mut [u8],
) -> u64
    ensures { Settled (settled tariff.now book.old trip.now
        (length statement.old)) book.old book.new statement.old statement.new result }
{
    milecopper::milecopper_settle(tariff, book, trip, statement)
}

// Quotes a trip: what settling it would write to the statement goes there, and the book is only read.
// Accepted: the number of bytes written, at most 532. Refused: the refusal's number × 2^32 + its place, and the statement is not touched.
#[unsafe(no_mangle)]
pub extern "C" fn milecopper_quote(
    tariff: &[u8],
    book: &[u8],
    trip: &[u8],
    statement: &mut [u8],
) -> u64
    ensures { Quoted (quoted tariff.now book.now trip.now
        (length statement.old)) statement.old statement.new result }
{
    milecopper::milecopper_quote(tariff, book, trip, statement)
}

// Posts a quote: where the record offered is exactly what a quote on this book would write, the book is brought up to date.
// Accepted: the number of bytes written, which is the book's length. Refused: the refusal's number × 2^32 + its place, and the book is not
// touched.
#[unsafe(no_mangle)]
pub extern "C" fn milecopper_post(
    tariff: &[u8],
    book: &mut [u8],
    trip: &[u8],
    offered: &[u8],
) -> u64
    ensures { Posted (posting_of tariff.now book.old trip.now offered.now)
        book.old book.new result }
{
    milecopper::milecopper_post(tariff, book, trip, offered)
}

// Reads the charge record, kind 4 or 6, that stands at a place of a statement; what stands behind it is left alone.
// Accepted: the record's bytes, so that the next stands so far behind it, and its fields at the start of `fields`, at most 324 bytes: kind,
// number of charges, adults, children, bicycles and area (1 each), kilometres 2, minutes 2, opening minute 4, then for each charge its cents
// 4, what caps took off 4, and the named cap's area and class (1 each). Refused: the refusal's number × 2^32, and `fields` is not touched.
#[unsafe(no_mangle)]
pub extern "C" fn milecopper_read(statement: &[u8], at: usize, fields: &mut [u8]) -> u64
    ensures { ReadTo (filling_of statement.now at (length fields.old)) fields.old fields.new result }
{
    milecopper::milecopper_read(statement, at, fields)
}
