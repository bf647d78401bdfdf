// What the program writes of version texts. The texts are arguments 2 and 3, which the request says fit their buffers.
ghost use Rattle.std.specs.Prelude.{◌≤◌, length};

use crate::show::{put, put_refusal};
use format::Answer;
use std::cmp::Ordering;
use std::env::Env;
use std::io;

fn put_order(rt: &impl Print, order: Ordering) -> io::Result<()> {
    match order {
        Ordering::Less => put(rt, b"older\n"),
        Ordering::Equal => put(rt, b"same\n"),
        Ordering::Greater => put(rt, b"newer\n"),
    }
}

// Puts argument `i` to the front of `room`, and answers how many bytes it has: none where it does not fit.
fn text_of(rt: &impl Env, i: usize, room: &mut [u8]) -> usize
    ensures { result ≤ length room.new }
{
    rt.arg(i, room).unwrap_or(0)
}

// How the left text stands to the right one.
pub(crate) fn put_compared(rt: &(impl Env + Print)) -> io::Result<()> {
    let mut left = [0u8; 65536];
    let n = text_of(rt, 2, &mut left);
    let mut right = [0u8; 65536];
    let m = text_of(rt, 3, &mut right);
    put_order(rt, version::compare(&left[..n], &right[..m]))
}

// Yes where the place is 1, else no; or the refusal.
fn put_met(rt: &impl Print, answer: Answer) -> io::Result<()> {
    match answer {
        Ok(1) => put(rt, b"yes\n"),
        Ok(_) => put(rt, b"no\n"),
        Err(refusal) => put_refusal(rt, refusal),
    }
}

// Whether a version text meets what a package requires for a name.
pub(crate) fn put_meets(rt: &(impl Env + Print), pkg: &[u8]) -> io::Result<()> {
    let mut name = [0u8; 65536];
    let n = text_of(rt, 2, &mut name);
    let mut version = [0u8; 65536];
    let m = text_of(rt, 3, &mut version);
    put_met(rt, meets::meets(pkg, &name[..n], &version[..m]))
}

// A text that does not fit its buffer.
pub(crate) fn put_too_long(rt: &impl Print) -> io::Result<()> {
    put(rt, b"too long for this program\n")
}
