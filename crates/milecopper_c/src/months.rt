// What C is offered over a monthly ceiling.
ghost use Rattle.std.specs.Prelude.{length};
ghost use Rattle.ceiling.specs.Ceiling.{settled_month};
ghost use Rattle.ceiling.specs.Clauses.{MonthSettled};

// Settles a trip under a monthly ceiling, as milecopper_settle does: book and records are uncut. The first 4 bytes of `due` become what this trip
// collects: its charges, cut to what the ceiling leaves over the amount kept for the month of its check-in in UTC. `kept` becomes that month, in
// months since January 2000, and the amount with what is due, 4 bytes each; fresh it is 8 zero bytes.
// Accepted: the number of bytes written to the statement, at most 532. Refused: the refusal's number × 2^32 + its place, and none of the four
// slices is touched. 24 comes first; 12 also where `due` has fewer than 4 bytes.
#[unsafe(no_mangle)]
pub extern "C" fn milecopper_settle_month(
    ceiling: u32,
    kept: &mut [u8],
    tariff: &[u8],
    book: &mut [u8],
    trip: &[u8],
    statement: &mut [u8],
    due: &mut [u8],
) -> u64
    ensures { MonthSettled (settled_month ceiling kept.old tariff.now book.old trip.now
        (length statement.old) (length due.old)) ceiling trip.now kept.old kept.new
        book.old book.new statement.old statement.new due.old due.new result }
{
    milecopper::months::milecopper_settle_month(ceiling, kept, tariff, book, trip, statement, due)
}
