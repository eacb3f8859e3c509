//! Random books, compiled from place to place and second by second, and explained. Each is played
//! as lines of `scripted_books.rt`.

use crate::scripted_books::play;
use std::alloc::Global;
use std::process::Abort;

/// Returns the next number of the pseudorandom sequence from which the profiles of a test's random
/// books are made: a linear congruential generator.
fn next_number(number: u32) -> u32 {
    number.wrapping_mul(1_664_525).wrapping_add(1_013_904_223)
}

/// Draws a value for a test's random book: one of `count` numbers from `least` on, from the bits of
/// `number` without its last `but`.
fn drawn(number: u32, but: u32, count: u32, least: u32) -> u32 {
    (number.wrapping_shr(but) % count.max(1)).saturating_add(least)
}

/// Appends words, such as ` level=`, and a number to the lines of a test's random book of a point.
fn put(rt: &impl Abort, text: &mut String, words: &str, number: u32) {
    write!(text, "{words}{number}").expect(rt, "error");
}

/// Returns the purpose of a random charging profile of a test in words, and its connector, from the
/// bits of a number.
fn purpose_of(number: u32) -> (&'static str, u32) {
    match drawn(number, 8, 4, 0) {
        0 => (" purpose=ChargePointMaxProfile connector=", 0),
        1 => (" purpose=TxProfile connector=", drawn(number, 11, 2, 1)),
        _ => (
            " purpose=TxDefaultProfile connector=",
            drawn(number, 10, 3, 0),
        ),
    }
}

/// Returns the kind of a test's random profile in words, ending with the name of its first second,
/// from the bits of a number.
fn kind_of(number: u32) -> &'static str {
    match drawn(number, 12, 4, 0) {
        0 => " kind=Absolute start=",
        1 => " kind=Recurring recurrency=Daily start=",
        2 => " kind=Recurring recurrency=Weekly moment=",
        _ => " kind=Relative moment=",
    }
}

/// The other fields of a row: each has its words, the number of bits to skip, the count of numbers
/// to draw from, and the least of these. All changes of a row are within some minutes.
const DRAWN: [(&str, u32, u32, u32); 10] = [
    (" level=", 14, 4, 0),
    (" duration=", 18, 100, 20),
    (" from=", 15, 60, 86_400),
    (" to=", 20, 200, 86_440),
    (" periods=", 21, 8, 0),
    (":", 22, 100, 60),
    (",", 6, 30, 8),
    (":", 24, 100, 60),
    (",", 7, 30, 40),
    (":", 9, 300, 60),
];

/// Appends the line of a test's random book that installs a charging profile of an id, made from
/// the bits of a number.
fn put_row(rt: &impl Abort, text: &mut String, id: u32, number: u32) {
    put(rt, text, "\nrow id=", id);
    let (purpose, connector) = purpose_of(number);
    put(rt, text, purpose, connector);
    put(rt, text, kind_of(number), drawn(number, 16, 150, 86_400));
    for (words, but, count, least) in &DRAWN {
        put(rt, text, words, drawn(number, *but, *count, *least));
    }
}

/// Appends a test's lines that install random charging profiles with the ids from 0 on, from the
/// next numbers, and returns the last number.
fn put_rows(rt: &impl Abort, text: &mut String, count: u32, before: u32) -> u32 {
    let mut number = before;
    for id in 0..count {
        number = next_number(number);
        put_row(rt, text, id, number);
    }
    number
}

/// Plays a test's random book of a point with two transactions and up to nine profiles. Each
/// connector's schedule is requested from the second from which the profiles change. The profiles
/// are made from the numbers after `before`; the last one is returned.
fn play_one(rt: &impl Abort, alloc: Global, (verb, seed): (&str, u32), before: u32) -> u32 {
    let mut text = String::new(alloc);
    put(rt, &mut text, "point ", drawn(seed, 0, 600, 120));
    put(
        rt,
        &mut text,
        " 2 320\nstart 1 tag ",
        drawn(seed, 0, 100, 86_350),
    );
    put(
        rt,
        &mut text,
        " 1\nstart 2 tag ",
        drawn(seed, 0, 70, 86_380),
    );
    text.push_str(" 1").expect(rt, "error");
    let number = put_rows(rt, &mut text, drawn(seed, 0, 9, 1), before);
    let duration = drawn(seed, 0, 140, 60);
    write!(
        &mut text,
        "\n{verb} 0 86410 {duration}\n{verb} 1 86410 {duration}\n{verb} 2 86410 {duration}"
    )
    .expect(rt, "error");
    play(rt, alloc, text.as_str());
    number
}

/// Checks for 10,000 random books that the compiler gives the schedules of the plain one, which
/// goes second by second.
#[test]
fn compiles_books_at_random(rt: HostRuntime) {
    let mut number = 1;
    for seed in 0..10_000u32 {
        number = play_one(&rt, rt.alloc(), ("alike", seed), number);
    }
}

/// Checks for 500 random books that each interval of an explained schedule has the right reason at
/// both ends.
#[test]
fn explains_books_at_random(rt: HostRuntime) {
    let mut number = 1;
    for seed in 0..500u32 {
        number = play_one(&rt, rt.alloc(), ("reasons", seed), number);
    }
}
