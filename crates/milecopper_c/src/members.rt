// What C is offered over a page of accounts that two associations share: 0 has the first six places, 1 the others.
ghost use Rattle.std.specs.Prelude.{length};
ghost use Rattle.settle.specs.Outcome.{Settled};
ghost use Rattle.accounts.specs.Members.{Changed};
ghost use Rattle.accounts.specs.Associations.{added_for, closed_for, settled_for};

// Adds a member of an association: the number and a fresh book go to the lowest free place of the association.
// Accepted: the number of bytes written, 5,476. Refused: the refusal's number × 2^32, 18 to 21, and the page is not touched.
#[unsafe(no_mangle)]
pub extern "C" fn milecopper_add(page: &mut [u8], association: u32, member: u32) -> u64
    ensures { Changed (added_for association page.old member) page.old page.new result }
{
    milecopper::members::milecopper_add(page, association, member)
}

// Closes the account of a member of an association: its place is cleared.
// Accepted: the number of bytes written, 5,476. Refused: the refusal's number × 2^32, 18, 19 or 21, and the page is not touched.
#[unsafe(no_mangle)]
pub extern "C" fn milecopper_close(page: &mut [u8], association: u32, member: u32) -> u64
    ensures { Changed (closed_for association page.old member) page.old page.new result }
{
    milecopper::members::milecopper_close(page, association, member)
}

// Settles a trip of a member of an association on that member's book, as milecopper_settle does on a book of its own; no other byte of the page
// is touched.
// Accepted: the number of bytes written to the statement, at most 532. Refused: the refusal's number × 2^32 + its place, and neither slice
// is touched.
#[unsafe(no_mangle)]
pub extern "C" fn milecopper_settle_member(
    tariff: &[u8],
    page: &mut [u8],
    association: u32,
    member: u32,
    trip: &[u8],
    statement: &mut [u8],
) -> u64
    ensures { Settled (settled_for tariff.now association page.old member trip.now
        (length statement.old)) page.old page.new statement.old statement.new result }
{
    milecopper::members::milecopper_settle_member(
        tariff,
        page,
        association,
        member,
        trip,
        statement,
    )
}
