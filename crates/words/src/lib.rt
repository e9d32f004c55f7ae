// Words of a board, bytes of a word, and words of bytes. A word is read and stored totally, as in the definitions: off the slice it reads 0, and a store
// there does nothing.
#![tactic(auto)]

ghost use Rattle.std.specs.Prelude.{ℕ, ◌≡◌, ◌++◌, ◌+◌, ◌-◌, ◌*◌, ◌/◌, ◌%◌, ◌^◌, ◌≤◌, ◌<◌, length, get_or, drop, set};
ghost use Rattle.model.specs.Words.{byte_of, word_of, words_of};
ghost use Rattle.model.specs.Tree.{cell};
ghost use Rattle.words.specs.Width.{Width, Wide};
ghost use Rattle.words.specs.Filled.{Filled};

// The word at an index.
pub fn word(words: &[u64], at: u64) -> u64
    ensures { result ≡ get_or words.now at 0 }
{
    words.get(at as usize).copied().unwrap_or(0)
}

// Stores a word.
pub fn put(words: &mut [u64], at: u64, value: u64)
    ensures { words.new ≡ set words.old at value }
{
    let i = at as usize;
    if i < words.len() {
        words[i] = value;
    }
}

// How many words a block has, told by a type: code for each size of block is compiled apart.
pub trait BlockSize {
    // A block has 2 ^ BITS words: 8 on a house board (BITS is 3), 512 on one with the published block (9).
    const BITS: u64;

    ghost BITS: { ℕ };

    ghost width: { Width BITS };
}

// A block's words.
pub fn width<B: BlockSize>() -> u64
    ensures { Wide B.BITS result }
{
    1 << B::BITS
}

// What is left of a word without so many low bits.
pub fn without_low(bits: u64, x: u64) -> u64
    requires { bits < 64 }
    ensures { result ≡ x / 2 ^ bits }
{
    x >> bits
}

// These low bits.
pub fn low(bits: u64, x: u64) -> u64
    requires { bits < 64 }
    ensures { result ≡ x % 2 ^ bits }
{
    x % (1 << bits)
}

// A number with so many low bits behind it, all 0.
pub fn raised(bits: u64, x: u64) -> u64
    requires { (bits < 64) × (2 ^ bits * x < 2 ^ 64) }
    ensures { result ≡ 2 ^ bits * x }
{
    x << bits
}

// The block of a pointer: what is left of it without its low bits.
pub fn block_of<B: BlockSize>(p: u64) -> u64
    ensures { result ≡ p / 2 ^ B.BITS }
{
    without_low(B::BITS, p)
}

// The low bits of a pointer.
pub fn low_of<B: BlockSize>(p: u64) -> u64
    ensures { result ≡ p % 2 ^ B.BITS }
{
    low(B::BITS, p)
}

// Where block k begins: the pointer to it.
pub fn start_of<B: BlockSize>(k: u64) -> u64
    requires { 2 ^ B.BITS * k < 2 ^ 64 }
    ensures { result ≡ 2 ^ B.BITS * k }
{
    raised(B::BITS, k)
}

// Word j of block k. A block that begins past the end is told by its number: where it would begin may be no word.
pub fn cell<B: BlockSize>(board: &[u64], k: u64, j: u64) -> u64
    ensures { result ≡ cell (2 ^ B.BITS) board.now k j }
{
    let n = board.len() as u64;
    if block_of::<B>(n) < k {
        return 0;
    }
    let start = start_of::<B>(k);
    word(&board[start as usize..], j)
}

// Byte i of a word.
pub fn byte(x: u64, i: u64) -> u8
    requires { i < 8 }
    ensures { result ≡ byte_of x i }
{
    x.to_le_bytes()[i as usize]
}

// The eight bytes of a word, to the front of a buffer.
pub fn spread(x: u64, out: &mut [u8])
    requires { 8 ≤ length out.old }
    ensures { Filled (byte_of x) 8 out.old out.new }
{
    out[..8].copy_from_slice(&x.to_le_bytes());
}

// The word whose byte 0 is at an index.
pub fn word_at(bytes: &[u8], at: usize) -> u64
    requires { at + 8 ≤ length bytes.now }
    ensures { result ≡ word_of 8 (λ i. get_or bytes.now (at + i) 0) }
{
    u64::from_le_bytes(*bytes[at..].first_chunk().unwrap())
}

// Stores each whole word of some bytes.
pub fn decode(bytes: &[u8], words: &mut [u64])
    requires { length bytes.now / 8 ≤ length words.old }
    ensures { words.new ≡ words_of bytes.now ++ drop (length bytes.now / 8) words.old }
{
    let (chunks, _) = bytes.as_chunks();
    for (i, chunk) in chunks.iter().enumerate() {
        words[i] = u64::from_le_bytes(*chunk);
    }
}
