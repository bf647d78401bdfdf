// Flags of numbers, by their lowest 12 bits.
#![tactic(auto)]

ghost use Rattle.std.specs.Prelude.{◌≡◌, replicate};
ghost use Rattle.flags.specs.Flags.{is_set, marked};

// 4,096 flags, in words of 64 bits.
#[derive(Drop)]
pub struct Flags {
    words: [u64; 64],
}

impl Flags {
    // No flag is set.
    pub fn new() -> Flags
        ensures { result.words ≡ replicate 64 0 }
    {
        Flags { words: [0; 64] }
    }

    // Whether the flag of a number is set.
    #[tactic(auto, unfolding(crate::specs::Flags::is_set))]
    pub fn is_set(&self, n: u32) -> bool
        ensures { result ≡ is_set self.now.words n }
    {
        let at = (n / 64 % 64) as usize;
        let bit = (self.words[at] >> (n % 64)) % 2;
        bit == 1
    }

    // Sets the flag of a number.
    pub fn set(&mut self, n: u32)
        ensures { self.new.words ≡ marked self.old.words n }
    {
        let at = (n / 64 % 64) as usize;
        let bit = 1 << (n % 64);
        self.words[at] |= bit;
    }
}
