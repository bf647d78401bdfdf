// What the program's arguments ask for.
use std::env::Env;

// A request: the structure, the tag and the type, the number of an element. Names and version texts are read where they are used.
#[derive(Clone, Copy)]
pub enum Request {
    Index {
        which: u32,
    },
    Find {
        which: u32,
        tag: u32,
        ty: u32,
    },
    Element {
        which: u32,
        tag: u32,
        ty: u32,
        number: u32,
    },
    Requires,
    Meets,
    Compare,
    TooLong,
    Unknown,
}

impl Request {
    // Whether it is one of a package.
    pub(crate) fn of_package(self) -> bool {
        !matches!(self, Request::Compare | Request::TooLong | Request::Unknown)
    }
}

// The number that argument `i` is.
fn number(rt: &impl Env, i: usize) -> Option<u32> {
    let mut word = [0u8; 4096];
    let n = rt.arg(i, &mut word).ok()?;
    text::decimal(&word[..n])
}

// `index STRUCTURE`
fn index(rt: &impl Env) -> Option<Request> {
    Some(Request::Index {
        which: number(rt, 2)?,
    })
}

// `find STRUCTURE TAG TYPE`
fn find(rt: &impl Env) -> Option<Request> {
    Some(Request::Find {
        which: number(rt, 2)?,
        tag: number(rt, 3)?,
        ty: number(rt, 4)?,
    })
}

// `element STRUCTURE TAG TYPE NUMBER`
fn element(rt: &impl Env) -> Option<Request> {
    Some(Request::Element {
        which: number(rt, 2)?,
        tag: number(rt, 3)?,
        ty: number(rt, 4)?,
        number: number(rt, 5)?,
    })
}

// Whether argument `i` fits the buffer for a text.
fn fits(rt: &impl Env, i: usize) -> bool {
    let mut word = [0u8; 65536];
    rt.arg(i, &mut word).is_ok()
}

// A request of two texts, `compare LEFT RIGHT` or `meets NAME VERSION`.
fn of_texts(rt: &impl Env, asked: Request) -> Request {
    if fits(rt, 2) && fits(rt, 3) {
        asked
    } else {
        Request::TooLong
    }
}

// What a command asks for, where there is such a command and its arguments are numbers. `count` is the number of arguments, the
// program's name and the command among them.
fn command(rt: &impl Env, word: &[u8], count: usize) -> Option<Request> {
    match (word, count) {
        (b"index", 3) => index(rt),
        (b"requires", 3) => Some(Request::Requires),
        (b"compare", 4) => Some(of_texts(rt, Request::Compare)),
        (b"meets", 4) => Some(of_texts(rt, Request::Meets)),
        (b"find", 5) => find(rt),
        (b"element", 6) => element(rt),
        _ => None,
    }
}

// The request of the arguments.
pub(crate) fn of_arguments(rt: &impl Env) -> Request {
    let mut word = [0u8; 4096];
    let Ok(n) = rt.arg(1, &mut word) else {
        return Request::Unknown;
    };
    let asked = command(rt, &word[..n], input::arg_count(rt));
    asked.unwrap_or(Request::Unknown)
}
