// Runs outside vectors: each section of the input is a tariff, a trip to be priced, a trip to be settled, or a fresh book, and prints a
// line or two. A section is a tag byte, a length in 4 bytes, and that many bytes. samples/vectors.txt is the readable source of input and
// output.
#![tactic(auto)]

ghost use Rattle.std.specs.Prelude.{◌<◌, ◌≤◌, ◌≡◌, length};
ghost use Rattle.layout.specs.Scan.{Read};
ghost use Rattle.fare.specs.Parts.{break_of};
ghost use Rattle.fare.specs.Clauses.{Riding, InOrder, RideIs};
ghost use Rattle.statement.specs.Reading.{persons_in};
ghost use Rattle.statement.specs.Clauses.{RecordAt};
ghost use Rattle.roll.specs.Clauses.{Readable};

use areas::area;
use deciding::decide::{Decision, decide};
use deciding::refusals::number;
use editions::{Edition, Editions, FileReading, counts_in, read_file, tariff_in};
use fare::Breaking;
use fare::parts::{first_part, second_part};
use fare::rides::ride_of;
use layout::Counts;
use ledger::words::SIZE;
use prices::price;
use settle::{Answer, settle};
use statement::LARGEST_STATEMENT;
use statement::reading::{
    area_at, cap_area_at, cap_class_at, charge_at, count_at, km_at, minutes_at, opening_at,
    persons_at, reduction_at, size_at,
};
use std::io::Read;
use trip::{Ride, Trip};
use wire::four_at;

const TARIFF: u8 = 84;

const PRICE: u8 = 80;

const SETTLE: u8 = 83;

const FRESH: u8 = 66;

// Room for all sections.
const ROOM: usize = 65_536;

// Where nothing can be written any more, the sections are run all the same.
fn say(rt: &impl Print, text: &[u8]) {
    let _ = rt.write_all(text);
}

fn say_number(rt: &impl Print, text: &[u8], n: u64) {
    let _ = rt.write_all(text);
    let _ = rt.print(n);
}

fn say_edition(rt: &impl Print, edition: Edition) {
    let since = edition.since;
    let counts = edition.counts;
    say_number(rt, b", from minute ", since.0 as u64);
    say_number(rt, b" areas ", counts.areas as u64);
    say_number(rt, b" stops ", counts.stops as u64);
}

fn say_editions(rt: &impl Print, editions: Editions) {
    match editions {
        Editions::One(only) => say_edition(rt, only),
        Editions::Two(first, second) => {
            say_edition(rt, first);
            say_edition(rt, second);
        }
    }
}

fn show_tariff(rt: &impl Print, file: &[u8]) {
    match read_file(file) {
        FileReading::Fault { number, at } => {
            say_number(rt, b"tariff refused ", number as u64);
            say_number(rt, b" at ", at as u64);
        }
        FileReading::Faultless(editions) => {
            say(rt, b"tariff faultless");
            say_editions(rt, editions);
        }
    }
    say(rt, b"\n");
}

fn say_ride(rt: &impl Print, at: u64, km: u64, minutes: u64, adult: u64, child: u64) {
    say_number(rt, b"area ", at);
    say_number(rt, b" km ", km);
    say_number(rt, b" min ", minutes);
    say_number(rt, b" price ", adult);
    say_number(rt, b" child ", child);
    say(rt, b"\n");
}

// A ride's area, kilometres and minutes, its price and the child's.
fn show_ride(rt: &impl Print, tariff: &[u8], counts: Counts, ride: Ride)
    requires { Read tariff.now counts × RideIs counts ride ride }
{
    let at = ride.area;
    let km = ride.km;
    let minutes = ride.minutes;
    let here = area(tariff, counts, at);
    let adult = price(here, ride, false);
    let child = price(here, ride, true);
    say_ride(
        rt,
        at as u64,
        km.0 as u64,
        minutes.0 as u64,
        adult.0 as u64,
        child.0 as u64,
    );
}

// Each part of a trip, in order: the whole ride, or the two that it is broken into.
fn show_rides(
    rt: &impl Print,
    tariff: &[u8],
    counts: Counts,
    bytes: &[u8],
    fields: Trip,
    breaking: Breaking,
)
    requires { Riding tariff.now counts bytes.now fields.stops × (InOrder fields ×
        (breaking ≡ break_of tariff.now counts bytes.now fields.stops)) }
{
    match breaking {
        Breaking::Unbroken => {
            show_ride(rt, tariff, counts, ride_of(tariff, counts, bytes, fields));
        }
        Breaking::At(c) => {
            show_ride(
                rt,
                tariff,
                counts,
                first_part(tariff, counts, bytes, fields, c),
            );
            show_ride(
                rt,
                tariff,
                counts,
                second_part(tariff, counts, bytes, fields, c),
            );
        }
    }
}

// A trip's price does not go by the book: it is tested as the first on a fresh one.
fn show_price(rt: &impl Print, file: &[u8], trip: &[u8]) {
    let FileReading::Faultless(editions) = read_file(file) else {
        say(rt, b"no tariff\n");
        return;
    };
    let fresh = [0u8; SIZE];
    match decide(file, editions, &fresh, trip, LARGEST_STATEMENT) {
        Decision::Clear(fields, window, breaking) => show_rides(
            rt,
            tariff_in(file, editions, window.edition),
            counts_in(editions, window.edition),
            trip,
            fields,
            breaking,
        ),
        Decision::Refused(why) => {
            say_number(rt, b"refused ", number(why) as u64);
            say(rt, b"\n");
        }
    }
}

// A person's charge, what caps took off the price, and the named cap's area and class.
fn show_person(rt: &impl Print, statement: &[u8], place: usize, i: usize)
    requires { RecordAt statement.now place × (i < persons_in statement.now place) }
{
    say_number(rt, b" ", charge_at(statement, place, i) as u64);
    say_number(rt, b" off ", reduction_at(statement, place, i) as u64);
    say_number(rt, b" by ", cap_area_at(statement, place, i) as u64);
    say_number(rt, b" ", cap_class_at(statement, place, i) as u64);
}

fn show_persons(rt: &impl Print, statement: &[u8], place: usize)
    requires { RecordAt statement.now place }
{
    for i in 0..persons_at(statement, place) {
        show_person(rt, statement, place, i);
    }
}

// The charges behind the persons'.
fn show_bicycles(rt: &impl Print, statement: &[u8], place: usize)
    requires { RecordAt statement.now place }
{
    for i in persons_at(statement, place)..count_at(statement, place) {
        say_number(rt, b" ", charge_at(statement, place, i) as u64);
    }
}

// The charge record at a place: the window's opening, area, kilometres, minutes, each person's charge and cut, and each bicycle's charge.
fn show_record(rt: &impl Print, statement: &[u8], place: usize)
    requires { RecordAt statement.now place }
{
    say_number(rt, b"open ", opening_at(statement, place) as u64);
    say_number(rt, b" area ", area_at(statement, place) as u64);
    say_number(rt, b" km ", km_at(statement, place) as u64);
    say_number(rt, b" min ", minutes_at(statement, place) as u64);
    say(rt, b" cents");
    show_persons(rt, statement, place);
    show_bicycles(rt, statement, place);
    say(rt, b"\n");
}

// The records of a statement of so many bytes: there is a second one where they go on behind the first.
fn show_records(rt: &impl Print, statement: &[u8], size: usize)
    requires { Readable statement.now size }
{
    show_record(rt, statement, 0);
    let behind = size_at(statement, 0);
    if behind < size {
        show_record(rt, statement, behind);
    }
}

fn show_settled(rt: &impl Print, file: &[u8], book: &mut [u8], trip: &[u8]) {
    let mut statement = [0u8; LARGEST_STATEMENT];
    match settle(file, book, trip, &mut statement) {
        Answer::Written(size) => show_records(rt, &statement, size),
        Answer::Refused { number, place } => {
            say_number(rt, b"refused ", number as u64);
            say_number(rt, b" at ", place as u64);
            say(rt, b"\n");
        }
    }
}

fn clear(book: &mut [u8]) {
    for i in 0..book.len() {
        book[i] = 0;
    }
}

fn show(rt: &impl Print, tag: u8, file: &[u8], book: &mut [u8], body: &[u8]) {
    if tag == PRICE {
        show_price(rt, file, body);
    } else if tag == SETTLE {
        show_settled(rt, file, book, body);
    } else if tag == FRESH {
        clear(book);
    } else {
        show_tariff(rt, body);
    }
}

// The sections one after another, as far as they are whole, each under the tariff last given.
fn sections(rt: &impl Print, input: &[u8], book: &mut [u8]) {
    let mut at = 0;
    let mut first = 0;
    let mut last = 0;
    while at < input.len() {
        if input.len() - at < 5 {
            return;
        }
        let from = at + 5;
        let long = four_at(input, at + 1) as usize;
        if input.len() - from < long {
            return;
        }
        let next = from + long;
        let tag = input[at];
        if tag == TARIFF {
            first = from;
            last = next;
        }
        show(rt, tag, &input[first..last], book, &input[from..next]);
        at = next;
    }
}

// Standard input's first bytes: all of them that can be read, or as many as there is room for.
fn read_input<F: Read>(stdin: &mut F, room: &mut [u8]) -> usize
    ensures { result ≤ length room.old }
{
    let mut end = 0;
    while end < room.len() {
        let bytes = stdin.read(&mut room[end..]).unwrap_or(0);
        if bytes == 0 {
            break;
        }
        end += bytes;
    }
    end
}

fn main(rt: HostRuntime) {
    let mut room = [0u8; ROOM];
    let end = read_input(&mut rt.stdin(), &mut room);
    let mut book = [0u8; SIZE];
    sections(&rt, &room[..end], &mut book);
}
