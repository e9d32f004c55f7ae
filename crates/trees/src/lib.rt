// Trees of blocks: the walk to a byte, the crawl that marks live blocks, and their count. A tree is (h, k, n), as in the
// definitions: its height, its block, and how many of its bytes lie below the file's size. Functions here take
// the three as numbers, which stay in registers.
#![tactic(auto)]

ghost use Rattle.std.specs.Prelude.{◌≡◌, [], ◌∷◌, ◌-◌, ◌*◌, ◌/◌, ◌%◌, ◌^◌, ◌<◌, ltb};
ghost use Rattle.model.specs.Tree.{ending, walk};
ghost use Rattle.model.specs.Board.{root_walk};
ghost use Rattle.trees.specs.Trees.{Reach, Spanned, Crawled, Beneath, Counted};
ghost use Rattle.trees.specs.Marks.{Marked};

use words::{BlockSize, block_of, cell, low_of, put, width, word};

// A tree (h, k, n), as functions of many arguments take it.
#[derive(Clone, Copy)]
pub struct Tree {
    pub height: u64,
    pub block: u64,
    pub left: u64,
}

impl Tree {
    // The tree of a file, by its root word and its size.
    pub fn of_root<B: BlockSize>(root: u64, size: u64) -> Tree
        ensures { result ≡ record { height = root % 2 ^ B.BITS; block = root / 2 ^ B.BITS; left = size } }
    {
        Tree {
            height: low_of::<B>(root),
            block: block_of::<B>(root),
            left: size,
        }
    }

    // Its child j, by the pointer to it; each child spans s bytes.
    pub fn child<B: BlockSize>(self, s: u64, j: u64, pointer: u64) -> Tree
        requires { (0 < self.height) × (j * s < 2 ^ 64) }
        ensures { result ≡ record { height = self.height - 1; block = pointer / 2 ^ B.BITS; left = self.left - j * s } }
    {
        Tree {
            height: self.height - 1,
            block: block_of::<B>(pointer),
            left: self.left.saturating_sub(j * s),
        }
    }
}

// The bytes that a tree of height h spans. A shift, since a walk divides by it.
pub fn span<B: BlockSize>(h: u64) -> u64
    requires { Reach B.BITS h }
    ensures { Spanned (2 ^ B.BITS) h result }
{
    8 << (B::BITS * (h + 1))
}

// The block where the walk to byte i of a tree ends, 0 in a hole: in the contract `ending r 1` is Some(r), or None where r is 0. A pointer is followed at
// each call but the last. A read walks to each block, so this is written for the call to be compiled to a jump: it answers a number, and lends a reference
// to the slice, where a slice is laid in memory anew for each call. Where it answers an Option, a read less its check takes half as many instructions again.
fn reached<B: BlockSize>(board: &&[u64], h: u64, k: u64, n: u64, i: u64) -> u64
    requires { Reach B.BITS h }
    ensures { ending result 1 ≡ walk (2 ^ B.BITS) board.now.now h k n i }
{
    if n == 0 {
        return 0;
    }
    if k == 0 {
        return 0;
    }
    if h == 0 {
        return k;
    }
    let s = span::<B>(h - 1);
    let j = i / s;
    let first = j * s;
    if n <= first {
        return 0;
    }
    let below = block_of::<B>(cell::<B>(*board, k, j));
    reached::<B>(board, h - 1, below, n - first, i - first)
}

// The walk to byte i of a tree.
fn walk<B: BlockSize>(board: &[u64], h: u64, k: u64, n: u64, i: u64) -> Option<u64>
    requires { Reach B.BITS h }
    ensures { result ≡ walk (2 ^ B.BITS) board.now h k n i }
{
    let block = reached::<B>(&board, h, k, n, i);
    if block == 0 {
        return None;
    }
    Some(block)
}

// The walk from a root word to byte i of a file of n bytes.
pub fn root_walk<B: BlockSize>(board: &[u64], root: u64, n: u64, i: u64) -> Option<u64>
    requires { Reach B.BITS (root % 2 ^ B.BITS) }
    ensures { result ≡ root_walk (2 ^ B.BITS) board.now root n i }
{
    let h = low_of::<B>(root);
    if span::<B>(h) <= i {
        return None;
    }
    walk::<B>(board, h, block_of::<B>(root), n, i)
}

// Marks block k; whether it lies below top and was not marked before.
pub fn claim(marks: &mut [u64], top: u64, k: u64) -> bool
    ensures { Marked (ltb k top) (k ∷ []) marks.old result marks.new }
{
    if top <= k {
        return false;
    }
    if word(marks, k) != 0 {
        return false;
    }
    put(marks, k, 1);
    true
}

// Marks the data blocks of the live pointers of block k; whether these pointers are as they must be and none of their blocks was marked before. The loop
// of a crawl, without its calls: most blocks hold data, and a call for each would cost more than its mark.
fn mark_data<B: BlockSize>(board: &[u64], marks: &mut [u64], top: u64, k: u64, n: u64) -> bool
    requires { Reach B.BITS 0 }
    ensures { Beneath (2 ^ B.BITS) top board.now 0 k n marks.old result marks.new }
{
    let s = span::<B>(0);
    let w = width::<B>();
    for i in 0..w {
        if n <= i * s {
            return true; // nor is any later one live
        }
        let pointer = cell::<B>(board, k, i);
        if low_of::<B>(pointer) != 0 {
            return false;
        }
        let block = block_of::<B>(pointer);
        if block != 0 && !claim(marks, top, block) {
            return false;
        }
    }
    true
}

// Marks the live blocks of a tree; whether its live pointers are as they must be and none of its blocks was marked before.
pub fn crawl<B: BlockSize>(
    board: &[u64],
    marks: &mut [u64],
    top: u64,
    h: u64,
    k: u64,
    n: u64,
) -> bool
    requires { Reach B.BITS h }
    ensures { Crawled (2 ^ B.BITS) top board.now h k n marks.old result marks.new }
{
    if n == 0 {
        return true;
    }
    if k == 0 {
        return true;
    }
    if !claim(marks, top, k) {
        return false;
    }
    if h == 0 {
        return true;
    }
    if h == 1 {
        return mark_data::<B>(board, marks, top, k, n);
    }
    let s = span::<B>(h - 1);
    let w = width::<B>();
    for j in 0..w {
        let first = j * s;
        if n <= first {
            return true;
        }
        let p = cell::<B>(board, k, j);
        if low_of::<B>(p) != 0 {
            return false;
        }
        if !crawl::<B>(board, marks, top, h - 1, block_of::<B>(p), n - first) {
            return false;
        }
    }
    true
}

// How many live blocks a tree has, pointer blocks and data blocks.
pub fn held_count<B: BlockSize>(board: &[u64], h: u64, k: u64, n: u64) -> u64
    requires { Reach B.BITS h }
    ensures { Counted (2 ^ B.BITS) board.now h k n result }
{
    if n == 0 {
        return 0; // not live
    }
    if k == 0 {
        return 0; // null
    }
    if h == 0 {
        return 1;
    }
    let s = span::<B>(h - 1);
    let w = width::<B>();
    let mut count = 1;
    for j in 0..w {
        let first = j * s;
        if first < n {
            let below = block_of::<B>(cell::<B>(board, k, j));
            count += held_count::<B>(board, h - 1, below, n - first);
        }
    }
    count
}
