// The catalogue of 82 lines and its one rule.
// It is what source document 000 says of each tag, with document 01's exceptions and house lines.
#![tactic(auto)]

ghost use Rattle.std.specs.Prelude.{◌≡◌};
ghost use Rattle.catalogue.specs.Catalogue.{catalogue, line_at, in_edition, is_required, is_as_line};

mod numbers;

use numbers::CATALOGUE;

// Whether a line's tag must be present, and in which editions.
#[derive(Clone, Copy, PartialEq, Eq)]
pub enum Status {
    // May be absent.
    Optional,
    // Must be present.
    Required,
    // Must be present: a line of this edition and later ones only.
    RequiredFrom(u32),
}

// One line of the catalogue.
#[derive(Clone, Copy)]
pub struct Line {
    pub tag: u32,
    pub ty: u32,
    // An exact count; `None` is any.
    pub count: Option<u32>,
    pub status: Status,
}

impl Line {
    // How many lines there are.
    pub const ALL: usize = 82;
    // How many of them are the signature's, which come first.
    pub const SIGNATURE: usize = 11;

    // What stands past the end.
    const NONE: Self = Self {
        tag: 0,
        ty: 0,
        count: None,
        status: Status::Optional,
    };

    // Line `i`, counted from 0. Past the end tag and type are 0, any count is right and the status is optional.
    #[tactic(auto, unfolding(crate::specs::Catalogue::line_at))]
    pub fn at(i: usize) -> Self
        ensures { result ≡ line_at i }
    {
        table().get(i).copied().unwrap_or(Self::NONE)
    }

    // Whether an edition, from 1 on, has this line.
    pub fn in_edition(self, edition: u32) -> bool
        ensures { result ≡ in_edition edition self }
    {
        match self.status {
            Status::Optional => true,
            Status::Required => 1 <= edition,
            Status::RequiredFrom(first) => first <= edition,
        }
    }

    // Whether its tag must be present.
    pub fn is_required(self) -> bool
        ensures { result ≡ is_required self }
    {
        self.status != Status::Optional
    }

    // Whether a type and a count are the line's.
    #[tactic(auto, unfolding(crate::specs::Catalogue::is_as_line))]
    pub fn allows(self, ty: u32, count: u32) -> bool
        ensures { result ≡ is_as_line self ty count }
    {
        self.ty == ty && self.count.is_none_or(|exact| exact == count)
    }
}

// The whole catalogue, lent.
#[tactic(auto, unfolding(crate::specs::Catalogue::catalogue, crate::specs::Catalogue::signature_lines, crate::specs::Catalogue::header_lines))]
pub fn table() -> &'static [Line; Line::ALL]
    ensures { result.now ≡ catalogue }
{
    &CATALOGUE
}
