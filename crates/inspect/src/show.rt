// What the program writes.
ghost use Rattle.std.specs.Prelude.{◌≤◌, length};

use format::{Answer, IndexRecord, Refusal};
use std::env::Env;
use std::io;
use walk::Position;

// How many bytes are spelled in hex at a time.
const PART: usize = 2048;

pub(crate) fn put(rt: &impl Print, bytes: &[u8]) -> io::Result<()> {
    rt.write_all(bytes)
}

// At most 5 numbers on a line.
#[tactic(auto, using(text::proofs::LineLaws::within))]
fn put_line(rt: &impl Print, numbers: &[u32]) -> io::Result<()>
    requires { length numbers.now ≤ 5 }
{
    let mut line = [0u8; 64];
    let n = text::line(numbers, &mut line);
    put(rt, &line[..n])
}

// The line of a refusal.
pub(crate) fn put_refusal(rt: &impl Print, refusal: Refusal) -> io::Result<()> {
    println!(rt; "refused {refusal}")
}

// At most 2,048 bytes in hex.
#[tactic(auto, using(text::proofs::HexLaws::within))]
fn put_part(rt: &impl Print, part: &[u8]) -> io::Result<()>
    requires { length part.now ≤ 2048 }
{
    let mut spelled = [0u8; 4096];
    let n = text::hex(part, &mut spelled);
    put(rt, &spelled[..n])
}

// Bytes in hex on a line.
fn put_hex(rt: &impl Print, bytes: &[u8]) -> io::Result<()> {
    for part in bytes.chunks(PART) {
        put_part(rt, part)?;
    }
    put(rt, b"\n")
}

// A look-up: `0 PLACE` and the bytes, or the refusal.
pub(crate) fn put_found(rt: &impl Print, answer: Answer, bytes: &[u8]) -> io::Result<()> {
    match answer {
        Ok(place) => {
            put_line(rt, &[0, place])?;
            put_hex(rt, bytes)
        }
        Err(refusal) => put_refusal(rt, refusal),
    }
}

// The line of an index record.
fn put_record(rt: &impl Print, place: u32, found: IndexRecord) -> io::Result<()> {
    put_line(
        rt,
        &[place, found.tag, found.ty, found.offset.get(), found.count],
    )
}

// What ends a walk: the end of the index, of which nothing is shown, or another refusal.
fn put_end(rt: &impl Print, refusal: Refusal) -> io::Result<()> {
    if refusal.number == 26 {
        Ok(())
    } else {
        put_refusal(rt, refusal)
    }
}

// The records of a structure.
#[tactic(auto, using(crate::proofs::WalkLaws::falls))]
pub(crate) fn put_index(rt: &impl Print, pkg: &[u8], which: u32) -> io::Result<()> {
    let mut position = Position::first();
    loop {
        let step = position.step(pkg, which);
        match step.answer {
            Ok(place) => put_record(rt, place, step.found)?,
            Err(refusal) => return put_end(rt, refusal),
        }
        position = step.next;
    }
}

// The version required for the name that is argument 2. A name that does not fit the buffer is longer than any string of
// a package.
pub(crate) fn put_required(rt: &(impl Env + Print), pkg: &[u8]) -> io::Result<()> {
    if let Err(refusal) = package::open(pkg) {
        return put_refusal(rt, refusal);
    }
    let mut name = [0u8; 65536];
    let Ok(n) = rt.arg(2, &mut name) else {
        return put(rt, b"\n");
    };
    put_hex(rt, required::required_version(pkg, &name[..n]))
}

// Standard input that could not be read.
pub(crate) fn put_unread(rt: &impl Print) -> io::Result<()> {
    put(rt, b"cannot read standard input\n")
}

pub(crate) fn put_usage(rt: &impl Print) -> io::Result<()> {
    put(
        rt,
        b"usage: inspect index STRUCTURE
       inspect find STRUCTURE TAG TYPE
       inspect element STRUCTURE TAG TYPE NUMBER
       inspect requires NAME
       inspect meets NAME VERSION
       inspect compare LEFT RIGHT
It reads a package from standard input, but for compare, which reads nothing.
STRUCTURE is 0 for the signature, else the header.
",
    )
}
