// What was collected of a text: a set of names, and a flag.
ghost use Rattle.std.specs.Prelude.{◌≡◌, length};

// The names that the 21s of a text assign at any depth, name n as bit n % 64 of word n / 64, and whether a 27, 28 or 29 stands in it.
#[derive(Clone, Copy)]
pub struct Collected {
    pub names: [u64; 16],
    pub declares: bool,
    ghost words: { length names ≡ 16 },
}

impl Collected {
    pub const NOTHING: Collected = Collected {
        names: [0; 16],
        declares: false,
    };
}
