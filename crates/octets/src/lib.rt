// Bytes and numbers: big-endian numbers, runs of bytes in a slice, words of eight bytes and tables of them.
// The definitions that the contracts cite are in specs/, the laws about them in proofs/.
#![tactic(auto)]

ghost use Rattle.std.specs.Prelude.{◌≡◌, ◌+◌, ◌-◌, ◌*◌, ◌<◌, ◌≤◌, length};
ghost use Rattle.octets.specs.Bytes.{num, be, part, put};
ghost use Rattle.octets.specs.Word.{word_size, word, word_bytes};

// The bytes of a word.
pub const WORD: usize = 8;

// The number of eight bytes.
pub fn number8(s: &[u8]) -> u64
    requires { length s.now ≡ 8 }
    ensures { result ≡ num s.now }
{
    u64::from_be_bytes([s[0], s[1], s[2], s[3], s[4], s[5], s[6], s[7]])
}

// The eight bytes of a number.
pub fn digits8(x: u64) -> [u8; 8]
    ensures { result ≡ be 8 x }
{
    x.to_be_bytes()
}

// Writes the bytes of s into b, from a place on. Byte by byte, which the compiler joins: for the library's copy it
// calls memmove where it does not know the length, and the calls for C ask for memcpy and memset alone.
pub fn put_bytes(b: &mut [u8], at: usize, s: &[u8])
    requires { at + length s.now ≤ length b.old }
    ensures { b.new ≡ put b.old at s.now }
{
    for (i, x) in s.iter().enumerate() {
        b[at + i] = *x;
    }
}

// The word at a place.
#[tactic(auto, unfolding(crate::specs::Bytes::part))]
pub fn get_word(b: &[u8], at: usize) -> u64
    requires { at + word_size ≤ length b.now }
    ensures { result ≡ word b.now at }
{
    number8(&b[at..at + WORD])
}

// Writes a word at a place.
pub fn put_word(b: &mut [u8], at: usize, x: u64)
    requires { at + word_size ≤ length b.old }
    ensures { b.new ≡ put b.old at (be word_size x) }
{
    put_bytes(b, at, &digits8(x));
}

// Writes the bytes of s, a word or more, into b from a place on: word by word, the last of them up to its end.
pub fn put_run(b: &mut [u8], at: usize, s: &[u8])
    requires { (word_size ≤ length s.now) × (at + length s.now ≤ length b.old) }
    ensures { b.new ≡ put b.old at s.now }
{
    let mut i = 0;
    while i + WORD < s.len() {
        put_word(b, at + i, get_word(s, i));
        i += WORD;
    }
    let last = s.len() - WORD;
    put_word(b, at + last, get_word(s, last));
}

// Writes the bytes of s into b, from a place on, one half after the other: the halves of a record are copied at the
// same speed wherever the two stand, a whole record is not on every processor.
pub fn put_halves(b: &mut [u8], at: usize, s: &[u8])
    requires { at + length s.now ≤ length b.old }
    ensures { b.new ≡ put b.old at s.now }
{
    let (first, second) = s.split_at(s.len() / 2);
    put_bytes(b, at, first);
    put_bytes(b, at + first.len(), second);
}

// Copies bytes, a word or more, from one place of b to another, which is the same or apart from it.
pub fn copy_within(b: &mut [u8], from: usize, to: usize, len: usize)
    requires { (word_size ≤ len) × (from + len ≤ length b.old) × (to + len ≤ length b.old)
        × (from < to → from + len ≤ to) × (to < from → to + len ≤ from) }
    ensures { b.new ≡ put b.old to (part b.old from len) }
{
    let mut i = 0;
    while i + WORD < len {
        put_word(b, to + i, get_word(b, from + i));
        i += WORD;
    }
    let last = len - WORD;
    put_word(b, to + last, get_word(b, from + last));
}

// Writes the words of t into b, from a place on.
pub fn put_words(b: &mut [u8], at: usize, t: &[u64])
    requires { at + word_size * length t.now ≤ length b.old }
    ensures { b.new ≡ put b.old at (word_bytes t.now) }
{
    for (i, x) in t.iter().enumerate() {
        put_word(b, at + WORD * i, *x);
    }
}
