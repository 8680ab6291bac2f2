// Lent memory, as the programs hand it to a call and judge it after: filled before the call, hashed and compared after. No section of document 01 is made
// true here; "lent memory left as it was" and "holds only zeros" are made visible in a line of text.
ghost use Rattle.std.specs.Prelude.{◌≡◌, ◌*◌, ◌%◌, ◌^◌, ◌≤◌, ◌<◌, ℕ};
ghost use Rattle.app_recording.specs.Hash.{hashed, hashed_two, hashed_four, hashed_signed, bits_of, basis, hash_of};
ghost use Rattle.app_recording.specs.Filled.{picture_word, Pictured, AllAre};

// A word of a picture: of 16 bits, or of 32, of which the upper eight are 0.
pub trait Word: Copy {
    ghost word_at: { ℕ → ℕ → Self };

    // The word at place i of a picture that is all over the place.
    fn word_at(seed: usize, i: usize) -> Self
        ensures { result ≡ word_at seed i };
}

impl Word for u16 {
    ghost word_at = { picture_word 65536 };

    fn word_at(seed: usize, i: usize) -> u16 {
        picture_word(65536, seed, i) as u16
    }
}

impl Word for u32 {
    ghost word_at = { picture_word 16777216 };

    fn word_at(seed: usize, i: usize) -> u32 {
        picture_word(16777216, seed, i) as u32
    }
}

// A number below n.
fn picture_word(n: usize, seed: usize, i: usize) -> usize
    requires { (1 ≤ n) × (n ≤ 16777216) }
    ensures { (result ≡ picture_word n seed i) × (result < n) }
{
    (i % n * 25173 + seed % n * 13849 + 1) % n
}

// Fills a picture with words that are all over the place.
pub fn fill_picture<W: Word>(picture: &mut [W], seed: usize)
    ensures { Pictured (W.word_at seed) picture.old picture.new }
{
    for (i, word) in picture.iter_mut().enumerate() {
        *word = W::word_at(seed, i);
    }
}

// Is every number of the list v?
pub fn all_are(list: &[i32], v: i32) -> bool
    ensures { AllAre v list.now result }
{
    for x in list {
        if *x != v {
            return false;
        }
    }
    true
}

// x times the prime 2^40 + 435, modulo 2^64.
fn times_prime(x: u64) -> u64
    ensures { result ≡ (x * 1099511628211) % 2 ^ 64 }
{
    x.wrapping_mul(1099511628211)
}

// The hash with a byte more.
fn with_byte(h: u64, b: u64) -> u64
    ensures { result ≡ hashed h b }
{
    times_prime(h ^ b)
}

fn with_two(h: u64, v: u64) -> u64
    ensures { result ≡ hashed_two h v }
{
    with_byte(with_byte(h, v % 256), v / 256 % 256)
}

fn with_four(h: u64, v: u64) -> u64
    ensures { result ≡ hashed_four h v }
{
    with_two(with_two(h, v % 65536), v / 65536)
}

// What a hash takes in, byte by byte, low byte first.
pub trait Hashed: Copy {
    ghost hashed: { ℕ → Self → ℕ };

    // A hash with all bytes of this more.
    fn hashed(self, h: u64) -> u64
        ensures { result ≡ hashed h self };
}

impl Hashed for u8 {
    ghost hashed = { hashed };

    fn hashed(self, h: u64) -> u64 {
        with_byte(h, u64::from(self))
    }
}

impl Hashed for u16 {
    ghost hashed = { hashed_two };

    fn hashed(self, h: u64) -> u64 {
        with_two(h, u64::from(self))
    }
}

impl Hashed for u32 {
    ghost hashed = { hashed_four };

    fn hashed(self, h: u64) -> u64 {
        with_four(h, u64::from(self))
    }
}

// A signed number as the number of its 32 bits.
fn bits_of(x: i32) -> u64
    ensures { result ≡ bits_of x }
{
    u64::from(x.cast_unsigned())
}

impl Hashed for i32 {
    ghost hashed = { hashed_signed };

    fn hashed(self, h: u64) -> u64 {
        with_four(h, bits_of(self))
    }
}

// The hash of bytes, words or numbers.
pub fn hash<T: Hashed>(s: &[T]) -> u64
    ensures { result ≡ hash_of T.hashed basis s.now }
{
    let mut h: u64 = 0xcbf29ce484222325;
    for x in s {
        h = x.hashed(h);
    }
    h
}
