//! Seeds in sixteen-bit words.
ghost use Rattle.std.specs.Prelude.{◌≡◌, ◌+◌, ◌*◌, ◌≤◌, length};
ghost use Rattle.seedtree.specs.Words.{seed_in, Stored};

/// The bytes of seed k.
pub fn load(words: &[u16], k: usize) -> [u8; 32]
    requires { 16 * k + 16 ≤ length words.now }
    ensures { result ≡ seed_in words.now k }
{
    let mut seed = [0; 32];
    let row = &words[16 * k..16 * k + 16];
    for (i, word) in row.iter().enumerate() {
        let [low, high] = word.to_le_bytes();
        seed[2 * i] = low;
        seed[2 * i + 1] = high;
    }
    seed
}

/// Makes these bytes seed k.
pub fn store(words: &mut [u16], k: usize, seed: &[u8])
    requires room { 16 * k + 16 ≤ length words.old }
    requires long { length seed.now ≡ 32 }
    ensures { Stored k seed.now words.old words.new }
{
    let row = &mut words[16 * k..16 * k + 16];
    // two bytes to a word, by place: of the words no iterator that goes with the bytes says what they end as
    for (i, word) in row.iter_mut().enumerate() {
        *word = u16::from_le_bytes([seed[2 * i], seed[2 * i + 1]]);
    }
}
