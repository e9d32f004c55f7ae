// The figures of a kind of board.
#![tactic(auto)]

ghost use Rattle.std.specs.Prelude.{ℕ, ◌≡◌, ◌*◌, ◌/◌, ◌%◌, ◌^◌, ◌≤◌, ◌<◌};
ghost use Rattle.model.specs.Layout.{Kind, layout_of};
ghost use Rattle.model.specs.Tree.{least};
ghost use Rattle.model.specs.Board.{greatest};
ghost use Rattle.kinds.specs.Figures.{Figures, Words, house_kind, published_kind, house_width, house_figures, published_width, published_figures};

use bands::least_height;
use words::{BlockSize, block_of, low, low_of, start_of, width, without_low};

// A kind of board, told by a type: code for each kind is compiled apart.
pub trait Layout: BlockSize {
    // A leaf has 2 inodes to this power.
    const INODE_BITS: u64;

    // the layout's mark in the trailer
    const MARK: u64;

    // the most blocks
    const MOST: u64;

    // how many inode leaves there are
    const LEAVES: u64;

    // the greatest height
    const HEIGHT: u64;

    // the greatest size
    const SIZE: u64;

    ghost INODE_BITS: { ℕ };

    ghost MARK: { ℕ };

    ghost MOST: { ℕ };

    ghost LEAVES: { ℕ };

    ghost HEIGHT: { ℕ };

    ghost SIZE: { ℕ };

    ghost kind: { Kind };

    // The least height whose tree spans e bytes.
    fn least_height(e: u64) -> u64
        requires { e ≤ greatest (layout_of kind) }
        ensures { result ≡ least (layout_of kind).words (layout_of kind).height e };

    ghost figures: { Figures kind Self.BITS INODE_BITS MARK MOST LEAVES HEIGHT SIZE };
}

// document 01's board, with blocks of 8 words
#[derive(Clone, Copy)]
pub struct House;

// N11 of document 02: a board with the published block, of 512 words
#[derive(Clone, Copy)]
pub struct Published;

impl BlockSize for House {
    const BITS: u64 = 3;

    ghost BITS = { 3 };

    ghost width = { house_width };
}

impl BlockSize for Published {
    const BITS: u64 = 9;

    ghost BITS = { 9 };

    ghost width = { published_width };
}

impl Layout for House {
    const INODE_BITS: u64 = 2;

    const MARK: u64 = 1;

    const MOST: u64 = 1024;

    const LEAVES: u64 = 8;

    const HEIGHT: u64 = 3;

    const SIZE: u64 = 32768;

    ghost INODE_BITS = { 2 };

    ghost MARK = { 1 };

    ghost MOST = { 1024 };

    ghost LEAVES = { 8 };

    ghost HEIGHT = { 3 };

    ghost SIZE = { 32768 };

    ghost kind = { house_kind };

    ghost figures = { house_figures };

    // by the bench sheet
    fn least_height(e: u64) -> u64 {
        least_height(e)
    }
}

impl Layout for Published {
    const INODE_BITS: u64 = 5;

    const MARK: u64 = 3;

    const MOST: u64 = 512;

    const LEAVES: u64 = 1;

    const HEIGHT: u64 = 1;

    const SIZE: u64 = 2097152;

    ghost INODE_BITS = { 5 };

    ghost MARK = { 3 };

    ghost MOST = { 512 };

    ghost LEAVES = { 1 };

    ghost HEIGHT = { 1 };

    ghost SIZE = { 2097152 };

    ghost kind = { published_kind };

    ghost figures = { published_figures };

    fn least_height(e: u64) -> u64 {
        published_height(e)
    }
}

// The least height whose tree spans e bytes, with the published block: no tree is taller than 1.
fn published_height(e: u64) -> u64
    ensures { result ≡ least 512 1 e }
{
    match e {
        0..=4096 => 0,
        _ => 1,
    }
}

// The words of a block.
pub fn words_in<L: Layout>() -> u64
    ensures { Words L.kind result }
{
    width::<L>()
}

// The block of a pointer.
pub fn block_in<L: Layout>(p: u64) -> u64
    ensures { result ≡ p / (layout_of L.kind).words }
{
    block_of::<L>(p)
}

// The low bits of a pointer.
pub fn low_in<L: Layout>(p: u64) -> u64
    ensures { result ≡ p % (layout_of L.kind).words }
{
    low_of::<L>(p)
}

// Where a block begins: the pointer to it.
pub fn start_in<L: Layout>(k: u64) -> u64
    requires { (layout_of L.kind).words * k < 2 ^ 64 }
    ensures { result ≡ (layout_of L.kind).words * k }
{
    start_of::<L>(k)
}

// The leaf of a file.
pub fn leaf_in<L: Layout>(file: u64) -> u64
    ensures { result ≡ file / (layout_of L.kind).inodes }
{
    without_low(L::INODE_BITS, file)
}

// Which of the leaf's inodes is a file's.
pub fn inode_in<L: Layout>(file: u64) -> u64
    ensures { result ≡ file % (layout_of L.kind).inodes }
{
    low(L::INODE_BITS, file)
}
