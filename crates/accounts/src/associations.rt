// What each association can ask for on a page that two of them share: 0 has the first six places, 1 the others. It is done on the association's
// own places, and nothing else of the page is looked at but its length. 21 comes before all of it but the file's 1 to 3.
ghost use Rattle.editions.specs.Reading.{ReadFile};
ghost use Rattle.accounts.specs.Associations.{added_for, closed_for};
ghost use Rattle.accounts.specs.Clauses.{ChangeTold, OwnSettled, ForSettled};

use crate::{add, close, refuse, settle_found};
use editions::{Editions, FileReading, read_file};
use settle::Answer;

const OWN_PLACES: usize = 6;

// Association not 0 or 1.
const NO_ASSOCIATION: u8 = 21;

// Adds a member in the association's lowest free place. 21, 18, 19, 20.
pub fn add_for(page: &mut [u8], association: u32, member: u32) -> Answer
    ensures { ChangeTold (added_for association page.old member) page.old page.new result }
{
    if association > 1 {
        return refuse(NO_ASSOCIATION);
    }
    let first = association as usize * OWN_PLACES;
    add(page, first, OWN_PLACES, member)
}

// Closes the account of a member of the association. 21, 18, 19.
pub fn close_for(page: &mut [u8], association: u32, member: u32) -> Answer
    ensures { ChangeTold (closed_for association page.old member) page.old page.new result }
{
    if association > 1 {
        return refuse(NO_ASSOCIATION);
    }
    let first = association as usize * OWN_PLACES;
    close(page, first, OWN_PLACES, member)
}

// 21, 18, 19, then 4 to 12: under a faultless file.
fn settle_own(
    file: &[u8],
    editions: Editions,
    page: &mut [u8],
    association: u32,
    member: u32,
    trip: &[u8],
    statement: &mut [u8],
) -> Answer
    requires { ReadFile file.now editions }
    ensures { OwnSettled file.now editions association page.old member trip.now
        statement.old page.new statement.new result }
{
    if association > 1 {
        return refuse(NO_ASSOCIATION);
    }
    let first = association as usize * OWN_PLACES;
    settle_found(
        file, editions, page, first, OWN_PLACES, member, trip, statement,
    )
}

// Settles a trip of a member of the association: on that member's book as `settle` does, and every other byte of the page stays. 1 to 3, 21, 18,
// 19, then 4 to 12.
pub fn settle_for(
    file: &[u8],
    page: &mut [u8],
    association: u32,
    member: u32,
    trip: &[u8],
    statement: &mut [u8],
) -> Answer
    ensures { ForSettled file.now association page.old member trip.now
        statement.old page.new statement.new result }
{
    match read_file(file) {
        FileReading::Fault { number, at } => Answer::Refused { number, place: at },
        FileReading::Faultless(editions) => settle_own(
            file,
            editions,
            page,
            association,
            member,
            trip,
            statement,
        ),
    }
}
