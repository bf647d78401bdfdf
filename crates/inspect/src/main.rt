// The program that shows what a package holds, and which of two versions is newer.
// Its arguments say what to show: an index, the data of an entry or of an element, the version required for a name, whether a
// version meets it, or how one version stands to another. It reads the package, where one is asked of, from standard input.
#![tactic(auto)]

mod request;
mod show;
mod versions;

use places::FileOffset;
use request::Request;
use std::env::Env;
use std::io;

// One byte more than a package may have, so that a longer input is refused.
const ROOM: usize = FileOffset::LIMIT + 1;

// Shows what is asked.
fn answer(rt: &(impl Env + Print), asked: Request, pkg: &[u8]) -> io::Result<()> {
    match asked {
        Request::Index { which } => show::put_index(rt, pkg, which),
        Request::Find { which, tag, ty } => show::put_found(
            rt,
            lookups::find_answer(pkg, which, tag, ty),
            lookups::find(pkg, which, tag, ty),
        ),
        Request::Element {
            which,
            tag,
            ty,
            number,
        } => show::put_found(
            rt,
            elements::find_element_answer(pkg, which, tag, ty, number),
            elements::find_element(pkg, which, tag, ty, number),
        ),
        Request::Requires => show::put_required(rt, pkg),
        Request::Meets => versions::put_meets(rt, pkg),
        Request::Compare => versions::put_compared(rt),
        Request::TooLong => versions::put_too_long(rt),
        Request::Unknown => show::put_usage(rt),
    }
}

fn main(rt: HostRuntime) -> io::Result<()> {
    let asked = request::of_arguments(&rt);
    if !asked.of_package() {
        return answer(&rt, asked, b"");
    }
    let mut room = [0u8; ROOM];
    match input::read(&mut rt.reader(), &mut room) {
        Ok(count) => answer(&rt, asked, &room[..count]),
        Err(_) => show::put_unread(&rt),
    }
}
