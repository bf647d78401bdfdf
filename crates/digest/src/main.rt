// The program that writes the digest of its input.
// It reads at most 65,536 bytes from standard input, and writes their MD5 digest in hex. It takes no arguments.
#![tactic(auto)]

ghost use Rattle.std.specs.Prelude.{◌≡◌};
ghost use Rattle.digest.specs.Printed.{printed};

use std::io;

// The most bytes that are read.
const LIMIT: usize = 65536;

// One byte more, so that a longer input is refused.
const ROOM: usize = LIMIT + 1;

// What is written for a message. `line` has the digest's line, where there is one.
#[tactic(auto, unfolding(crate::specs::Printed::printed, message_digest::specs::Ascii::ascii))]
fn answer<'a>(message: &[u8], line: &'a mut [u8; 33]) -> &'a [u8]
    ensures { result.now ≡ printed message.now }
{
    if LIMIT < message.len() {
        return b"too large for this program\n";
    }
    *line = text::hex_line(message_digest::md5(message));
    line
}

// Writes what belongs to a message.
fn put_answer(rt: &impl Print, message: &[u8]) -> io::Result<()> {
    let mut line = [0u8; 33];
    rt.write_all(answer(message, &mut line))
}

// Reads a message from standard input, and writes what belongs to it.
fn put_input(rt: &(impl Input + Print)) -> io::Result<()> {
    let mut room = [0u8; ROOM];
    match input::read(&mut rt.reader(), &mut room) {
        Ok(count) => put_answer(rt, &room[..count]),
        Err(_) => println!(rt; "cannot read standard input"),
    }
}

fn main(rt: HostRuntime) -> io::Result<()> {
    if 1 < input::arg_count(&rt) {
        return println!(rt; "usage: digest < FILE");
    }
    put_input(&rt)
}
