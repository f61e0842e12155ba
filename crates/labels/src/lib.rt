// A set of labels 0 to 255, held in four words by value.
#![tactic(auto)]

ghost use Rattle.std.specs.Prelude.{◌≡◌, ◌+◌, ◌≤◌, length};
ghost use Rattle.wire.specs.Runs.{over};
ghost use Rattle.labels.specs.Sets.{one_label, ◌∪◌, word_of, has};
ghost use Rattle.labels.specs.Search.{count_of, next_from};
ghost use Rattle.labels.specs.Bytes.{low_bytes, number_at, label_bytes, set_at};
ghost use Rattle.labels.specs.Words.{labels_in, Joins, JoinsAt};

#[derive(Clone, Copy)]
pub struct Labels {
    pub w0: u64,
    pub w1: u64,
    pub w2: u64,
    pub w3: u64,
}

impl Labels {
    // `no_labels` of the definitions.
    pub const EMPTY: Labels = Labels {
        w0: 0,
        w1: 0,
        w2: 0,
        w3: 0,
    };

    // The set of one label.
    pub fn one(label: u8) -> Labels
        ensures { result ≡ one_label label }
    {
        let bit = 1u64 << (label % 64);
        if label < 64 {
            return Labels {
                w0: bit,
                w1: 0,
                w2: 0,
                w3: 0,
            };
        }
        if label < 128 {
            return Labels {
                w0: 0,
                w1: bit,
                w2: 0,
                w3: 0,
            };
        }
        if label < 192 {
            return Labels {
                w0: 0,
                w1: 0,
                w2: bit,
                w3: 0,
            };
        }
        Labels {
            w0: 0,
            w1: 0,
            w2: 0,
            w3: bit,
        }
    }

    pub fn union(self, other: Labels) -> Labels
        ensures { result ≡ self ∪ other }
    {
        Labels {
            w0: self.w0 | other.w0,
            w1: self.w1 | other.w1,
            w2: self.w2 | other.w2,
            w3: self.w3 | other.w3,
        }
    }

    // The word that a label stands in.
    fn word(self, label: u8) -> u64
        ensures { result ≡ word_of self label }
    {
        if label < 64 {
            return self.w0;
        }
        if label < 128 {
            return self.w1;
        }
        if label < 192 {
            return self.w2;
        }
        self.w3
    }

    pub fn contains(self, label: u8) -> bool
        ensures { result ≡ has self label }
    {
        (self.word(label) >> (label % 64)) % 2 == 1
    }

    pub fn count(self) -> u16
        ensures { result ≡ count_of self }
    {
        let low = u64::count_ones(self.w0) + u64::count_ones(self.w1);
        let high = u64::count_ones(self.w2) + u64::count_ones(self.w3);
        (low + high) as u16
    }

    // The least label of the set at or above `from`: each turn looks at the rest of one word.
    pub fn next(self, from: u16) -> Option<u8>
        ensures { result ≡ next_from self from }
    {
        let mut at = from;
        while at < 256 {
            let rest = self.word(at as u8) >> (at % 64);
            if rest != 0 {
                return Some((at + u64::trailing_zeros(rest) as u16) as u8);
            }
            at = at / 64 * 64 + 64;
        }
        None
    }

    // The set in the 32 bytes from `at` on. A byte past the end reads as 0.
    pub fn read_at(bytes: &[u8], at: usize) -> Labels
        ensures { result ≡ set_at bytes.now at }
    {
        if bytes.len() < 32 {
            return read_short(bytes, at);
        }
        if bytes.len() - 32 < at {
            return read_short(bytes, at);
        }
        Labels::read_within(bytes, at)
    }

    // The set in the 32 bytes from `at` on, which are there: no test at run time.
    pub fn read_within(bytes: &[u8], at: usize) -> Labels
        requires { at + 32 ≤ length bytes.now }
        ensures { result ≡ set_at bytes.now at }
    {
        Labels {
            w0: read_word(bytes, at),
            w1: read_word(bytes, at + 8),
            w2: read_word(bytes, at + 16),
            w3: read_word(bytes, at + 24),
        }
    }

    // Stores the 32 bytes from `at` on. Past the end nothing is stored.
    pub fn write_at(self, bytes: &mut [u8], at: usize)
        ensures { bytes.new ≡ over bytes.old at (label_bytes self) }
    {
        if bytes.len() < 32 {
            self.write_short(bytes, at);
            return;
        }
        if bytes.len() - 32 < at {
            self.write_short(bytes, at);
            return;
        }
        self.write_within(bytes, at);
    }

    // As much of the bytes as there is room for. It is called from two places so that the back end does not merge it into its caller, where it is seldom needed.
    fn write_short(self, bytes: &mut [u8], at: usize)
        ensures { bytes.new ≡ over bytes.old at (label_bytes self) }
    {
        let mut whole = [0u8; 32];
        self.write_within(&mut whole, 0);
        wire::copy_into(bytes, at, &whole);
    }

    // Stores the 32 bytes from `at` on, for which there is room: no test at run time.
    pub fn write_within(self, bytes: &mut [u8], at: usize)
        requires { at + 32 ≤ length bytes.old }
        ensures { bytes.new ≡ over bytes.old at (label_bytes self) }
    {
        put_word(bytes, at, self.w0);
        put_word(bytes, at + 8, self.w1);
        put_word(bytes, at + 16, self.w2);
        put_word(bytes, at + 24, self.w3);
    }

    // The set in four words that a caller lends.
    pub fn in_words(set: &[u64; 4]) -> Labels
        ensures { result ≡ labels_in set.now }
    {
        Labels {
            w0: set[0],
            w1: set[1],
            w2: set[2],
            w3: set[3],
        }
    }
}

// ---- Joining in place: each word is read, joined and written once

// Joins a set to the one in four words that a caller lends.
pub fn join(set: &mut [u64; 4], more: Labels)
    requires { length set.old ≡ 4 }
    ensures { Joins set.old set.new more }
{
    set[0] = set[0] | more.w0;
    set[1] = set[1] | more.w1;
    set[2] = set[2] | more.w2;
    set[3] = set[3] | more.w3;
}

// Joins a set to the one in the 32 bytes from `at` on.
pub fn join_within(bytes: &mut [u8], at: usize, more: Labels)
    requires { at + 32 ≤ length bytes.old }
    ensures { JoinsAt bytes.old bytes.new at more }
{
    let old = Labels::read_within(bytes, at);
    more.union(old).write_within(bytes, at);
}

// What is there of the bytes, and zeros; called from two places for the same reason as `write_short`.
fn read_short(bytes: &[u8], at: usize) -> Labels
    ensures { result ≡ set_at bytes.now at }
{
    if bytes.len() <= at {
        return Labels::EMPTY;
    }
    let mut whole = [0u8; 32];
    wire::copy_into(&mut whole, 0, &bytes[at..]);
    Labels::read_within(&whole, 0)
}

fn wide(b: u8) -> u64
    ensures { result ≡ b }
{
    b as u64
}

// Lowest byte first.
fn put_word(out: &mut [u8], at: usize, word: u64)
    requires { at + 8 ≤ length out.old }
    ensures { out.new ≡ over out.old at (low_bytes 8 word) }
{
    let mut left = word;
    let mut i = 0;
    while i < 8 {
        out[at + i] = (left % 256) as u8;
        left /= 256;
        i += 1;
    }
}

// Goes down from the highest byte, which comes last.
fn read_word(b: &[u8], at: usize) -> u64
    requires { at + 8 ≤ length b.now }
    ensures { result ≡ number_at b.now at 8 }
{
    let mut word: u64 = 0;
    let mut i = 8;
    while 0 < i {
        i -= 1;
        word = word * 256 + wide(b[at + i]);
    }
    word
}
