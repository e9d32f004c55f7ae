// The bytes of a file, block by block.
#![tactic(auto)]

ghost use Rattle.std.specs.Prelude.{◌≡◌, ◌+◌, ◌*◌, ◌^◌, ◌≤◌, length};
ghost use Rattle.model.specs.Lists.{tabulate};
ghost use Rattle.model.specs.Tree.{shown};
ghost use Rattle.words.specs.Filled.{Filled};
ghost use Rattle.files.specs.Filling.{Rooted, FillResult};

use trees::root_walk;
use words::{BlockSize, block_of, byte, cell, spread, start_of, width};

// The bytes of block k from byte `from` on, to fill a buffer.
fn copy_bytes<B: BlockSize>(board: &[u64], k: u64, from: u64, out: &mut [u8])
    requires { from ≤ 4096 }
    ensures { out.new ≡ tabulate (length out.old) (λ j. shown (2 ^ B.BITS) board.now (Some k) (from + j)) }
{
    for (j, b) in out.iter_mut().enumerate() {
        let at = from + j as u64;
        let x = cell::<B>(board, k, at / 8);
        *b = byte(x, at % 8);
    }
}

// The n words of block k from word `from` on, to fill a buffer, where all of them are on the board: no word is tested, so that several are copied at once.
fn copy_run<B: BlockSize>(board: &[u64], k: u64, from: u64, n: usize, out: &mut [u8])
    requires { (8 * n ≡ length out.old) × (2 ^ B.BITS * k + (from + n) ≤ length board.now) }
    ensures { out.new ≡ tabulate (length out.old) (λ j. shown (2 ^ B.BITS) board.now (Some k) (8 * from + j)) }
{
    let first = (start_of::<B>(k) + from) as usize;
    for (w, x) in board[first..first + n].iter().enumerate() {
        spread(*x, &mut out[8 * w..]);
    }
}

// The same where they may be off it.
fn copy_words<B: BlockSize>(board: &[u64], k: u64, from: u64, n: usize, out: &mut [u8])
    requires { (8 * n ≡ length out.old) × (from ≤ 512) }
    ensures { out.new ≡ tabulate (length out.old) (λ j. shown (2 ^ B.BITS) board.now (Some k) (8 * from + j)) }
{
    if k < block_of::<B>(board.len() as u64) && from + n as u64 <= width::<B>() {
        copy_run::<B>(board, k, from, n, out);
        return;
    }
    for w in 0..n {
        let x = cell::<B>(board, k, from + w as u64);
        spread(x, &mut out[8 * w..]);
    }
}

// The bytes from byte `from` on of the block where a walk ended, to fill a buffer, whole words where that is all of them.
fn copy_piece<B: BlockSize>(board: &[u64], end: Option<u64>, from: u64, out: &mut [u8])
    requires { from ≤ 4096 }
    ensures { out.new ≡ tabulate (length out.old) (λ j. shown (2 ^ B.BITS) board.now end (from + j)) }
{
    let n = out.len();
    match end {
        None => {
            // The library's `fill` stores the last byte by itself, which is slower.
            for b in out.iter_mut() {
                *b = 0;
            }
        }
        Some(k) if from % 8 == 0 && n % 8 == 0 => {
            copy_words::<B>(board, k, from / 8, n / 8, out);
        }
        Some(k) => copy_bytes::<B>(board, k, from, out),
    }
}

// n of these bytes, to the start of what is left of a read's buffer.
fn copy<B: BlockSize>(board: &[u64], end: Option<u64>, from: u64, n: usize, out: &mut [u8])
    requires { (n ≤ length out.old) × (from ≤ 4096) }
    ensures { Filled (λ j. shown (2 ^ B.BITS) board.now end (from + j)) n out.old out.new }
{
    copy_piece::<B>(board, end, from, &mut out[..n]);
}

// Fills a buffer with the bytes of a file of n bytes, from byte o on, each piece placed after the last, and answers how many there are.
pub fn fill<B: BlockSize>(board: &[u64], root: u64, n: u64, o: u64, out: &mut [u8]) -> usize
    requires { Rooted B.BITS root n }
    ensures { FillResult (2 ^ B.BITS) board.now root n o out.old result out.new }
{
    let count = out.len().min(n.saturating_sub(o) as usize);
    let bytes = 8 * width::<B>();
    let mut done = 0;
    while done < count {
        let at = o + done as u64;
        let from = at % bytes;
        let len = ((bytes - from) as usize).min(count - done);
        let end = root_walk::<B>(board, root, n, at);
        copy::<B>(board, end, from, len, &mut out[done..]);
        done += len;
    }
    count
}
