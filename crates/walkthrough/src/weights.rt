// Charges, rankings, the order of sets and the counts of choices.
use crate::trees::LAMP;
use choices::count;
use ranking::charge::charge;
use ranking::kinds::*;
use ranking::order::Ranking;
use ranking::pairs::*;
use ranking::set_order::{Weighed, at_most};
use ranking::terms::Terms;
use ranking::weight::add_part;
use std::io;
use tree::line::Part;
use tree::line_set::{alone, highest, is_within, size, union};
use tree_text::SetText;

fn charge_in(rt: &HostRuntime, year: u32, growth: u32) -> io::Result<()> {
    match Terms::new(year, growth) {
        Ok(terms) => {
            let cents = charge(LAMP, terms);
            println!(rt; "charge of a lamp in year {year} at growth {growth}: {cents}")
        }
        Err(_) => println!(rt; "charge of a lamp in year {year} at growth {growth}: refused"),
    }
}

pub fn charge_lamp(rt: &HostRuntime) -> io::Result<()> {
    for (year, growth) in [(0, 30), (1, 30), (2, 30), (11, 30), (1, 201)] {
        charge_in(rt, year, growth)?;
    }
    Ok(())
}

// A dear part that is easy to reach, and a cheap one that is not.
const DEAR: Part = Part {
    rarity: 3000,
    class: 1,
    discount: 0,
    price: 40000,
};

const CHEAP: Part = Part {
    rarity: 1500,
    class: 7,
    discount: 0,
    price: 9000,
};

// Line 0 and line 2 are dear, line 1 and line 3 are cheap.
fn part_at(line: usize) -> Part {
    if line % 2 == 0 { DEAR } else { CHEAP }
}

fn with_line<R: Ranking>(weight: R::Weight, line: usize) -> R::Weight {
    let part = part_at(line);
    add_part::<R>(weight, part, u64::from(part.price))
}

fn weighed<R: Ranking>((a, b): (usize, usize)) -> Weighed<R::Weight> {
    Weighed {
        set: union(alone(a), alone(b)),
        weight: with_line::<R>(with_line::<R>(R::zero(), a), b),
    }
}

fn compared<R: Ranking>(
    rt: &HostRuntime,
    letter: char,
    a: (usize, usize),
    b: (usize, usize),
) -> io::Result<()> {
    let left = weighed::<R>(a);
    let right = weighed::<R>(b);
    let x = SetText(left.set);
    let y = SetText(right.set);
    let first = if at_most::<R>(left, right) {
        "first"
    } else {
        "second"
    };
    println!(rt; "{x} and {y} by {letter}: the {first} comes first")
}

pub fn compare_sets(rt: &HostRuntime) -> io::Result<()> {
    compared::<ByPrice>(rt, 'P', (0, 2), (1, 3))?;
    compared::<ByRarity>(rt, 'R', (0, 2), (1, 3))?;
    compared::<ByClass>(rt, 'C', (0, 2), (1, 3))?;
    compared::<BySize>(rt, 'S', (0, 2), (1, 3))?;
    compared::<ByPrice>(rt, 'P', (0, 1), (0, 3))?;
    compared::<ByPrice>(rt, 'P', (2, 3), (0, 1))?;
    let pair = union(alone(1), alone(3));
    let text = SetText(pair);
    let lines = size(pair);
    println!(rt; "size of {text}: {lines}")?;
    match highest(pair) {
        Some(line) => println!(rt; "highest line of {text}: {line}")?,
        None => println!(rt; "highest line of {text}: none")?,
    }
    let inside = is_within(alone(3), pair);
    println!(rt; "{text} has line 3: {inside}")
}

fn count_of(rt: &HostRuntime, m: usize, q: usize) -> io::Result<()> {
    match count(m, q) {
        Some(k) => println!(rt; "choices of {q} of {m}: {k}"),
        None => println!(rt; "choices of {q} of {m}: none counted"),
    }
}

// A loop as in charge_lamp. One function of both would take the cases and the printing as arguments, and be longer.
pub fn count_choices(rt: &HostRuntime) -> io::Result<()> {
    for (m, q) in [(0, 0), (3, 2), (2, 3), (12, 6), (13, 1)] {
        count_of(rt, m, q)?;
    }
    Ok(())
}
