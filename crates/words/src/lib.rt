// Words of 32 bits, as MD5 adds, rotates and mixes them (RFC 1321, section 2 and the functions of 3.4): the registers, and the
// function of each round.
#![tactic(auto)]

ghost use Rattle.std.specs.Prelude.{◌≡◌};
ghost use Rattle.words.specs.Words.{auxiliary, increased};

// The registers A, B, C and D.
#[derive(Clone, Copy)]
pub struct State {
    pub a: u32,
    pub b: u32,
    pub c: u32,
    pub d: u32,
}

impl State {
    // The registers after a block, each increased by what it was before.
    #[tactic(auto, unfolding(crate::specs::Words::increased))]
    pub fn increase(self, before: State) -> State
        ensures { result ≡ increased before self }
    {
        State {
            a: self.a.wrapping_add(before.a),
            b: self.b.wrapping_add(before.b),
            c: self.c.wrapping_add(before.c),
            d: self.d.wrapping_add(before.d),
        }
    }
}

// The rounds of a block.
#[derive(Clone, Copy)]
pub enum Round {
    One,
    Two,
    Three,
    Four,
}

impl Round {
    // The auxiliary function of a round: F, G, H or I.
    #[tactic(auto, unfolding(crate::specs::Words::auxiliary))]
    pub fn mix(self, x: u32, y: u32, z: u32) -> u32
        ensures { result ≡ auxiliary self x y z }
    {
        match self {
            Round::One => (x & y) | (!x & z),
            Round::Two => (x & z) | (y & !z),
            Round::Three => x ^ y ^ z,
            Round::Four => y ^ (x | !z),
        }
    }
}
