// The lead.
ghost use Rattle.std.specs.Prelude.{◌≡◌};
ghost use Rattle.format.specs.Lead.{lead_of};

// The lead's fields that have a rule, and whether its name is ended by a zero byte.
#[derive(Clone, Copy)]
pub struct Lead {
    pub magic: u32,
    pub major: u8,
    pub minor: u8,
    pub ty: u16,
    pub named: bool,
    pub system: u16,
    pub signature_type: u16,
}

impl Lead {
    pub const SIZE: usize = 96;

    pub const MAGIC: usize = 0;

    pub const MAJOR: usize = 4;

    pub const MINOR: usize = 5;

    pub const TYPE: usize = 6;

    pub const ARCHITECTURE: usize = 8;

    pub const NAME: usize = 10;

    pub const SYSTEM: usize = 76;

    pub const SIGNATURE_TYPE: usize = 78;

    pub const RESERVED: usize = 80;

    // The lead of a package.
    pub fn of(pkg: &[u8]) -> Self
        ensures { result ≡ lead_of pkg.now }
    {
        Self {
            magic: be::be32(pkg, Self::MAGIC),
            major: be::byte_at(pkg, Self::MAJOR),
            minor: be::byte_at(pkg, Self::MINOR),
            ty: be::be16(pkg, Self::TYPE),
            named: strings::strings_end(pkg, Self::NAME, Self::SYSTEM, 1).is_some(),
            system: be::be16(pkg, Self::SYSTEM),
            signature_type: be::be16(pkg, Self::SIGNATURE_TYPE),
        }
    }
}
