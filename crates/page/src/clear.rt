// What is written to a place that a member gets or leaves.
ghost use Rattle.std.specs.Prelude.{◌≡◌, length};
ghost use Rattle.page.specs.Pages.{place_size, cleared_place, new_place, start_of, replaced};
ghost use Rattle.page.specs.Clauses.{OnPage};

use crate::PLACE_SIZE;
use wire::put_four;

// All of a place back to 0.
pub fn clear(place: &mut [u8])
    requires { length place.old ≡ place_size }
    ensures { place.new ≡ cleared_place }
{
    for i in 0..PLACE_SIZE {
        place[i] = 0;
    }
}

// A new member's number, and a fresh book.
pub fn write_new(place: &mut [u8], member: u32)
    requires { length place.old ≡ place_size }
    ensures { place.new ≡ new_place member }
{
    clear(place);
    put_four(place, 0, member);
}

// A place written for a new member.
pub fn fill_place(page: &mut [u8], place: usize, member: u32)
    requires { OnPage page.old place }
    ensures { page.new ≡ replaced page.old (start_of place) place_size (new_place member) }
{
    let start = place * PLACE_SIZE;
    let end = start + PLACE_SIZE;
    write_new(&mut page[start..end], member);
}

// A place cleared.
pub fn clear_place(page: &mut [u8], place: usize)
    requires { OnPage page.old place }
    ensures { page.new ≡ replaced page.old (start_of place) place_size cleared_place }
{
    let start = place * PLACE_SIZE;
    let end = start + PLACE_SIZE;
    clear(&mut page[start..end]);
}
