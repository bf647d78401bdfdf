// The program that writes the doses of a package.
// It reads one package from standard input at edition 3, and writes its doses and their sum, or the refusal. It takes no
// arguments.
#![tactic(auto)]

ghost use Rattle.std.specs.Prelude.{◌≤◌, length};

use book::Dose;
use places::FileOffset;
use std::io;

// One byte more than a package may have, so that a longer input is refused.
const ROOM: usize = FileOffset::LIMIT + 1;
// How many numbers a dose takes.
const NUMBERS: usize = Dose::NUMBERS as usize;

// Writes a dose: `OXIDE MILLIGRAMS LOT`.
#[tactic(auto, using(text::proofs::LineLaws::within))]
fn put_dose(rt: &impl Print, dose: &[u32]) -> io::Result<()> {
    let mut line = [0u8; 33];
    let n = text::lines::line(dose, &mut line);
    rt.write_all(&line[..n])
}

// Writes a line for each dose of a run of numbers, oxide, milligrams and lot.
fn put_doses(rt: &impl Print, numbers: &[u32]) -> io::Result<()> {
    for dose in numbers.chunks_exact(NUMBERS) {
        put_dose(rt, dose)?;
    }
    Ok(())
}

// The sum of the milligrams of a run of numbers, oxide, milligrams and lot.
fn total(numbers: &[u32]) -> u64
    requires { length numbers.now ≤ 8192 }
{
    let mut sum: u64 = 0;
    for dose in numbers.chunks_exact(NUMBERS) {
        sum += dose[1] as u64;
    }
    sum
}

// Writes an accepted book's doses and their sum.
fn put_book(rt: &impl Print, numbers: &[u32]) -> io::Result<()>
    requires { length numbers.now ≤ 8192 }
{
    println!(rt; "edition 3")?;
    put_doses(rt, numbers)?;
    let sum = total(numbers);
    println!(rt; "total {sum}")
}

// Reads a package at edition 3, with room for any book's doses, and writes what it holds.
fn put_package(rt: &impl Print, pkg: &[u8]) -> io::Result<()> {
    let mut doses = [0u32; 8192];
    match reading::read(3, pkg, &mut doses) {
        Ok(count) => {
            let used = NUMBERS * count as usize;
            put_book(rt, &doses[..used])
        }
        Err(refusal) => println!(rt; "refused {refusal}"),
    }
}

// Reads a package from standard input, and writes what it holds.
fn put_input(rt: &(impl Input + Print)) -> io::Result<()> {
    let mut room = [0u8; ROOM];
    match input::read(&mut rt.reader(), &mut room) {
        Ok(count) => put_package(rt, &room[..count]),
        Err(_) => println!(rt; "cannot read standard input"),
    }
}

fn main(rt: HostRuntime) -> io::Result<()> {
    if 1 < input::arg_count(&rt) {
        return println!(rt; "usage: doses < PACKAGE");
    }
    put_input(&rt)
}
