// A board of some kind: where its words stand, a file's inode among them, and whether its word count, its trailer and its spare inode pointers are as they
// must be.
#![tactic(auto)]

ghost use Rattle.std.specs.Prelude.{◌≡◌, ◌+◌, ◌-◌, ◌<◌, get_or};
ghost use Rattle.model.specs.Lists.{every};
ghost use Rattle.model.specs.Layout.{layout_of};
ghost use Rattle.model.specs.Tree.{link};
ghost use Rattle.model.specs.Board.{trailer_word, block_count, trailer, inode_pointer, root_address, root, size, linked_leaf, linked_word, word_count_sound, trailer_sound};
ghost use Rattle.boards.specs.Trailers.{zeros_in, trailer_word_sound, trailer_words_sound, spares_sound};
ghost use Rattle.boards.specs.Inodes.{AddressOf, InodeOf};

use kinds::{Layout, block_in, inode_in, leaf_in, low_in, start_in, words_in};
use model::Inode;
use words::{cell, word};

// The number of blocks.
pub fn block_count<L: Layout>(board: &[u64]) -> u64
    ensures { result ≡ block_count (layout_of L.kind) board.now }
{
    block_in::<L>(board.len() as u64)
}

// The last block, the trailer. Those that files may use lie below it.
pub fn last<L: Layout>(board: &[u64]) -> u64
    ensures { result ≡ block_count (layout_of L.kind) board.now - 1 }
{
    block_count::<L>(board).saturating_sub(1)
}

// Word j of the trailer.
pub fn trailer<L: Layout>(board: &[u64], j: u64) -> u64
    ensures { result ≡ trailer (layout_of L.kind) board.now j }
{
    cell::<L>(board, last::<L>(board), j)
}

// Inode pointer l.
pub fn inode_pointer<L: Layout>(board: &[u64], l: u64) -> u64
    ensures { result ≡ inode_pointer (layout_of L.kind) board.now l }
{
    let k = block_in::<L>(trailer::<L>(board, 0));
    cell::<L>(board, k, l)
}

// A word of a file's inode: 0 the root, 1 the size.
fn inode_word<L: Layout>(board: &[u64], f: u64, j: u64) -> u64
    requires { j < 2 }
    ensures { result ≡ get_or board.now (root_address (layout_of L.kind) board.now f + j) 0 }
{
    let k = block_in::<L>(inode_pointer::<L>(board, leaf_in::<L>(f)));
    cell::<L>(board, k, 2 * inode_in::<L>(f) + j)
}

// The root word of a file.
pub fn root<L: Layout>(board: &[u64], f: u64) -> u64
    ensures { result ≡ root (layout_of L.kind) board.now f }
{
    inode_word::<L>(board, f, 0)
}

// The size of a file.
pub fn size<L: Layout>(board: &[u64], f: u64) -> u64
    ensures { result ≡ size (layout_of L.kind) board.now f }
{
    inode_word::<L>(board, f, 1)
}

// The address of a file's root word; its size stands in the next.
pub fn root_address<L: Layout>(board: &[u64], file: u64) -> u64
    ensures { AddressOf (layout_of L.kind) board.now file result }
{
    let p = inode_pointer::<L>(board, leaf_in::<L>(file));
    start_in::<L>(block_in::<L>(p)) + 2 * inode_in::<L>(file)
}

// A file's inode.
pub fn lent_inode<L: Layout>(board: &[u64], file: u64) -> Inode
    requires { file < 32 }
    ensures { InodeOf (layout_of L.kind) board.now file result }
{
    let pointers = start_in::<L>(block_in::<L>(trailer::<L>(board, 0)));
    let pointer = pointers + leaf_in::<L>(file);
    let at = root_address::<L>(board, file);
    let root = word(board, at);
    let size = word(board, at + 1);
    Inode {
        pointer,
        at,
        root,
        size,
    }
}

// Word j of a block, 0 where the block is null.
fn link<L: Layout>(board: &[u64], block: u64, j: u64) -> u64
    ensures { result ≡ link (layout_of L.kind).words board.now block j }
{
    if block == 0 {
        return 0;
    }
    cell::<L>(board, block, j)
}

// The leaf of a file on any board: null where the trailer, the inode pointer block or the inode pointer is, since block 0 is not read.
fn linked_leaf<L: Layout>(board: &[u64], f: u64) -> u64
    ensures { result ≡ linked_leaf (layout_of L.kind) board.now f }
{
    let k = block_in::<L>(link::<L>(board, last::<L>(board), 0));
    block_in::<L>(link::<L>(board, k, leaf_in::<L>(f)))
}

// A word of a file's inode there: 0 the root, 1 the size.
pub fn linked_word<L: Layout>(board: &[u64], f: u64, j: u64) -> u64
    requires { j < 2 }
    ensures { result ≡ linked_word (layout_of L.kind) board.now f j }
{
    let k = linked_leaf::<L>(board, f);
    link::<L>(board, k, 2 * inode_in::<L>(f) + j)
}

// Whether the board has 16 blocks to the most of its kind, and no part of one.
pub fn word_count_sound<L: Layout>(board: &[u64]) -> bool
    ensures { result ≡ word_count_sound (layout_of L.kind) board.now }
{
    let n = board.len() as u64;
    if n < start_in::<L>(16) {
        return false;
    }
    if start_in::<L>(L::MOST) < n {
        return false;
    }
    low_in::<L>(n) == 0
}

// What word j of the trailer must be, from word 1 on, on a board of so many blocks.
pub fn trailer_word<L: Layout>(blocks: u64, j: u64) -> u64
    ensures { result ≡ trailer_word (layout_of L.kind) blocks j }
{
    match j {
        1 => 512,
        2 => blocks,
        3 => L::MARK,
        _ => 0,
    }
}

// Whether words `from` to `to` - 1 of the block that begins at an index are 0; those off the board are. All are read, so that several are read at once.
fn zeros(board: &[u64], at: u64, from: u64, to: u64) -> bool
    ensures { result ≡ zeros_in board.now at from (to - from) }
{
    let end = board.len().min(at.saturating_add(to) as usize);
    let start = end.min(at.saturating_add(from) as usize);
    board[start..end].iter().fold(0, |any, word| any | word) == 0
}

// Whether words 1 to 3 of the trailer are as they must be.
fn figures_sound<L: Layout>(board: &[u64]) -> bool
    ensures { result ≡ every 3 (trailer_word_sound (layout_of L.kind) board.now) }
{
    let blocks = block_count::<L>(board);
    (1..4).all(|j| trailer::<L>(board, j) == trailer_word::<L>(blocks, j))
}

// Whether the words of the trailer from word 1 on are as they must be: from word 4 on they are 0.
fn trailer_words_sound<L: Layout>(board: &[u64]) -> bool
    ensures { result ≡ trailer_words_sound (layout_of L.kind) board.now }
{
    if !figures_sound::<L>(board) {
        return false;
    }
    let at = start_in::<L>(last::<L>(board));
    zeros(board, at, 4, words_in::<L>())
}

// Whether the trailer is as it must be.
pub fn trailer_sound<L: Layout>(board: &[u64]) -> bool
    ensures { result ≡ trailer_sound (layout_of L.kind) board.now }
{
    let p = trailer::<L>(board, 0);
    if low_in::<L>(p) != 1 {
        return false;
    }
    let k = block_in::<L>(p);
    if k == 0 {
        return false;
    }
    if last::<L>(board) <= k {
        return false;
    }
    trailer_words_sound::<L>(board)
}

// Whether the words of the inode pointer block past the inode pointers are 0. The house's block has none.
pub fn spares_sound<L: Layout>(board: &[u64]) -> bool
    ensures { result ≡ spares_sound (layout_of L.kind) board.now }
{
    let at = start_in::<L>(block_in::<L>(trailer::<L>(board, 0)));
    zeros(board, at, L::LEAVES, words_in::<L>())
}
