// The program that prints the test suite of RFC 1321.
// It takes no input, and writes what A.5 has.
#![tactic(auto)]

use std::io;

// The messages of the suite.
const MESSAGES: [&str; 7] = [
    "",
    "a",
    "abc",
    "message digest",
    "abcdefghijklmnopqrstuvwxyz",
    "ABCDEFGHIJKLMNOPQRSTUVWXYZabcdefghijklmnopqrstuvwxyz0123456789",
    "12345678901234567890123456789012345678901234567890123456789012345678901234567890",
];

// Writes a message and its digest.
fn put(rt: &impl Print, message: &str) -> io::Result<()> {
    print!(rt; "MD5 (\"{message}\") = ")?;
    rt.write_all(&text::hex_line(message_digest::md5(message.as_bytes())))
}

fn main(rt: HostRuntime) -> io::Result<()> {
    println!(rt; "MD5 test suite:")?;
    for message in MESSAGES {
        put(&rt, message)?;
    }
    Ok(())
}
