// Whether a board is accepted, and has a file; which of its blocks are live, and which are free.
#![tactic(auto)]

ghost use Rattle.std.specs.Prelude.{◌≡◌, [], ◌∷◌, ◌-◌, ◌≤◌, length, replicate};
ghost use Rattle.model.specs.Lists.{tabulate, joined, every, pick_from};
ghost use Rattle.model.specs.Layout.{layout_of, files};
ghost use Rattle.model.specs.Board.{leaf, file_blocks, live_blocks, leaf_sound, inodes_sound, file_sound};
ghost use Rattle.trees.specs.Marks.{Marked};
ghost use Rattle.surveying.specs.Survey.{pointers_sound, spare, Surveyed, Listed};
ghost use Rattle.model.specs.Answers.{answered};
ghost use Rattle.model.specs.Calls.{file_faults, check_answer};

use boards::{
    inode_pointer, last, root, size, spares_sound, trailer, trailer_sound, word_count_sound,
};
use kinds::{Layout, block_in, low_in};
use model::{Answer, Fault};
use trees::{claim, crawl};
use words::{put, word};

// Marks leaf l; whether its pointer is as it must be and it was not marked before.
fn leaf<L: Layout>(board: &[u64], marks: &mut [u64], l: u64) -> bool
    ensures { Marked (leaf_sound (layout_of L.kind) board.now l) (leaf (layout_of L.kind) board.now l ∷ []) marks.old result marks.new }
{
    let p = inode_pointer::<L>(board, l);
    if low_in::<L>(p) != 0 {
        return false;
    }
    let k = block_in::<L>(p);
    if k == 0 {
        return false;
    }
    let top = last::<L>(board);
    claim(marks, top, k)
}

// The same of all leaves.
fn leaves<L: Layout>(board: &[u64], marks: &mut [u64]) -> bool
    ensures { Marked (every (layout_of L.kind).leaves (leaf_sound (layout_of L.kind) board.now)) (tabulate (layout_of L.kind).leaves (leaf (layout_of L.kind) board.now)) marks.old result marks.new }
{
    let n = L::LEAVES;
    for l in 0..n {
        if !leaf::<L>(board, marks, l) {
            return false;
        }
    }
    true
}

// The same of all words of the inode pointer block.
fn pointers<L: Layout>(board: &[u64], marks: &mut [u64]) -> bool
    ensures { Marked (inodes_sound (layout_of L.kind) board.now) (tabulate (layout_of L.kind).leaves (leaf (layout_of L.kind) board.now)) marks.old result marks.new }
{
    if !spares_sound::<L>(board) {
        return false;
    }
    leaves::<L>(board, marks)
}

// Marks the live blocks of file f; whether its size and its tree are as they must be and none of them was marked before.
fn file<L: Layout>(board: &[u64], marks: &mut [u64], f: u64) -> bool
    ensures { Marked (file_sound (layout_of L.kind) board.now f) (file_blocks (layout_of L.kind) board.now f) marks.old result marks.new }
{
    let n = size::<L>(board, f);
    if L::SIZE < n {
        return false;
    }
    if n == 0 {
        return true;
    }
    let p = root::<L>(board, f);
    let h = low_in::<L>(p);
    if L::HEIGHT < h {
        return false;
    }
    let top = last::<L>(board);
    crawl::<L>(board, marks, top, h, block_in::<L>(p), n)
}

// The same of all files.
fn files<L: Layout>(board: &[u64], marks: &mut [u64]) -> bool
    ensures { Marked (every (files (layout_of L.kind)) (file_sound (layout_of L.kind) board.now)) (joined (files (layout_of L.kind)) (file_blocks (layout_of L.kind) board.now)) marks.old result marks.new }
{
    for f in 0..32 {
        if !file::<L>(board, marks, f) {
            return false;
        }
    }
    true
}

// The same of the inode pointer block, the leaves and the files.
fn live<L: Layout>(board: &[u64], marks: &mut [u64]) -> bool
    ensures { Marked (pointers_sound (layout_of L.kind) board.now) (live_blocks (layout_of L.kind) board.now) marks.old result marks.new }
{
    let top = last::<L>(board);
    let k = block_in::<L>(trailer::<L>(board, 0));
    if !claim(marks, top, k) {
        return false;
    }
    if !pointers::<L>(board, marks) {
        return false;
    }
    files::<L>(board, marks)
}

// What check answers; where that is no refusal, the live blocks are marked.
pub fn survey<L: Layout>(board: &[u64], marks: &mut [u64]) -> Answer
    requires { marks.old ≡ replicate 1024 0 }
    ensures { Surveyed (layout_of L.kind) board.now result marks.new }
{
    if !word_count_sound::<L>(board) {
        return Err(Fault::WordCount);
    }
    if !trailer_sound::<L>(board) {
        return Err(Fault::Trailer);
    }
    if !live::<L>(board, marks) {
        return Err(Fault::Damaged);
    }
    Ok(0)
}

// Check: 0, or refused 1, 2, 3.
pub fn check<L: Layout>(board: &[u64]) -> Answer
    ensures { result ≡ check_answer (layout_of L.kind) board.now }
{
    let mut marks = [0u64; 1024];
    survey::<L>(board, &mut marks)
}

// Whether the board is accepted and has such a file: 0, or refused 1, 2, 3, 4.
pub fn check_file<L: Layout>(board: &[u64], file: u64) -> Answer
    ensures { result ≡ answered (file_faults (layout_of L.kind) board.now file) 0 }
{
    check::<L>(board)?;
    if 31 < file {
        return Err(Fault::FileNumber);
    }
    Ok(0)
}

// Whether block k is not marked.
fn spare(marks: &[u64], k: u64) -> bool
    ensures { result ≡ spare marks.now k }
{
    word(marks, k) == 0
}

// How many of the blocks 1 to top - 1 are not marked.
pub fn unmarked(marks: &[u64], top: u64) -> u64
    ensures { result ≡ length (pick_from 1 (top - 1) (spare marks.now)) }
{
    let mut count = 0;
    for k in 1..top {
        if spare(marks, k) {
            count += 1;
        }
    }
    count
}

// Lists the blocks from 1 to top - 1 that are not marked, at the front of a table. Answers how many there are.
pub fn list_free(marks: &[u64], top: u64, table: &mut [u64]) -> u64
    requires { top ≤ length table.old }
    ensures { Listed marks.now top table.old result table.new }
{
    let mut count = 0;
    for k in 1..top {
        if spare(marks, k) {
            put(table, count, k);
            count += 1;
        }
    }
    count
}
