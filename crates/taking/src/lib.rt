// Blocks taken for a write: what of its bytes falls under a child, a block's words, its stores in the plan, which blocks of a tree are made fresh and how
// many. The board is read through a view, with growth performed; c counts the blocks taken; `base` is that of `Grown`.
#![tactic(auto)]

ghost use Rattle.std.specs.Prelude.{◌≡◌, false, ◌&&◌, ◌||◌, [], ◌∷◌, ◌+◌, ◌*◌, ◌/◌, ◌^◌, ◌≤◌, ◌<◌, length, get_or, eqb, leb};
ghost use Rattle.model.specs.Words.{word_of};
ghost use Rattle.model.specs.Store.{laid};
ghost use Rattle.model.specs.Fresh.{part, part_length, touched, need, data_page};
ghost use Rattle.trees.specs.Trees.{Reach};
ghost use Rattle.plans.specs.Onto.{Blocks, onto};
ghost use Rattle.taking.specs.Taking.{Took, PointerTo, spliced_byte, new_stores, whole, TreeCount};

use plans::{View, block, pair};
use std::array;
use trees::{Tree, span};
use words::{BlockSize, byte, start_of, width, word, word_at};

// Bytes written at `offset` of a tree, `taken` blocks being taken before.
#[derive(Clone, Copy)]
pub struct Under {
    pub tree: Tree,
    pub offset: u64,
    pub taken: u64,
}

// Of the bytes written at o, those that fall under child j, each child spanning s bytes.
pub fn part<'a>(new: &'a [u8], s: u64, j: u64, o: u64) -> &'a [u8]
    requires { (s ≤ 2 ^ 32) × (j ≤ 512) }
    ensures { result.now ≡ part s j o new.now }
{
    let first = j * s;
    let skip = first.saturating_sub(o) as usize;
    let most = s.saturating_sub(o.saturating_sub(first)) as usize;
    let rest = &new[skip.min(new.len())..];
    &rest[..most.min(rest.len())]
}

// How many of l bytes written at o do.
pub fn part_length(s: u64, j: u64, o: u64, l: u64) -> u64
    requires { (s ≤ 2 ^ 32) × (j ≤ 512) }
    ensures { result ≡ part_length s j o l }
{
    let first = j * s;
    let most = s.saturating_sub(o.saturating_sub(first));
    let rest = l.saturating_sub(first.saturating_sub(o));
    rest.min(most)
}

// Byte i of word j of a block with `new` written at o: x stands in the word, and n bytes of the block are visible.
fn spliced_byte(x: u64, n: u64, o: u64, new: &[u8], j: u64, i: u64) -> u8
    requires { (j ≤ 512) × (i < 8) }
    ensures { result ≡ spliced_byte x n o new.now j i }
{
    let at = 8 * j + i;
    if o <= at {
        if let Some(b) = new.get((at - o) as usize) {
            return *b;
        }
    }
    if at < n { byte(x, i) } else { 0 }
}

// Whether none of l bytes written at o falls into the word that begins at byte `first`.
fn beside(first: u64, o: u64, l: u64) -> bool
    requires { first ≤ 4096 }
    ensures { result ≡ (leb (first + 8) o || leb (o + l) first) }
{
    if first + 8 <= o {
        return true;
    }
    o <= first && l <= first - o
}

// That word, byte by byte. At most three words of a block need it: where the new bytes begin and end, and where the visible ones end.
#[inline(never)]
fn spliced_bytes(x: u64, n: u64, o: u64, new: &[u8], j: u64) -> u64
    requires { j ≤ 512 }
    ensures { result ≡ word_of 8 (spliced_byte x n o new.now j) }
{
    u64::from_le_bytes(array::from_fn(|i| spliced_byte(x, n, o, new, j, i as u64)))
}

// That word. Where all of it is written, or nothing and it is all visible or not at all, it is had at once,
// without a register saved: so neither of the two is compiled into the loops over a block's words.
#[inline(never)]
pub fn spliced(x: u64, n: u64, o: u64, new: &[u8], j: u64) -> u64
    requires { j ≤ 512 }
    ensures { result ≡ word_of 8 (spliced_byte x n o new.now j) }
{
    let first = 8 * j;
    if beside(first, o, new.len() as u64) {
        if first + 8 <= n {
            return x;
        }
        if n <= first {
            return 0;
        }
    }
    if o <= first {
        let d = (first - o) as usize;
        if d + 8 <= new.len() {
            return word_at(new, d);
        }
    }
    spliced_bytes(x, n, o, new, j)
}

// Word j of the data block of a tree with `new` written at o.
pub fn data_word<B: BlockSize>(view: &View<'_, B>, tree: Tree, o: u64, new: &[u8], j: u64) -> u64
    requires { j ≤ 512 }
    ensures { result ≡ data_page (2 ^ B.BITS) (onto (2 ^ B.BITS) view.now.free.now view.now.board.now view.now.grown) tree.block tree.left o new.now j }
{
    spliced(view.link(tree.block, j), tree.left, o, new, j)
}

// Where the stores of the block that is taken c-th stand in the plan.
pub fn place<B: BlockSize>(base: u64, c: u64) -> u64
    requires { base + 2 ^ B.BITS * c ≤ 2 ^ 32 }
    ensures { result ≡ base + 2 ^ B.BITS * c }
{
    base + start_of::<B>(c)
}

// The pointer to the block that is taken i-th.
pub fn pointer<B: BlockSize>(free: &[u64], i: u64) -> u64
    requires { Blocks free.now }
    ensures { PointerTo (2 ^ B.BITS) free.now i result }
{
    start_of::<B>(word(free, i))
}

// Takes the next free block for a page and lays its stores. Answers how many are taken then.
pub fn take<B: BlockSize>(free: &[u64], plan: &mut [u64], base: u64, page: &[u64], c: u64) -> u64
    requires { Blocks free.now × (base + 2 ^ B.BITS * (c + 1) ≤ 2 ^ 32) }
    ensures { Took (2 ^ B.BITS) free.now plan.old base c ((λ j. get_or page.now j 0) ∷ []) plan.new result }
{
    block::<B>(plan, place::<B>(base, c), word(free, c), page);
    c + 1
}

// Whether l bytes written at o are all of a data block.
fn all_written<B: BlockSize>(o: u64, l: u64) -> bool
    ensures { result ≡ (eqb o 0 && eqb l (8 * 2 ^ B.BITS)) }
{
    o == 0 && l == 8 * width::<B>()
}

// Lays the stores of the block that begins at address `to` and is written whole, from place p on.
fn lay_new(plan: &mut [u64], p: u64, to: u64, new: &[u8])
    requires { (p ≤ 2 ^ 32) × (to ≤ 2 ^ 63) × (length new.now ≤ 4096) }
    ensures { plan.new ≡ laid plan.old p (new_stores (length new.now / 8) to new.now) }
{
    let (chunks, _) = new.as_chunks();
    for (j, chunk) in chunks.iter().enumerate() {
        let j = j as u64;
        pair(plan, p + j, to + j, u64::from_le_bytes(*chunk));
    }
}

// Takes the next free block for the data block of a tree, with `new` written. Off the plan no word is worked out.
pub fn take_data<B: BlockSize>(
    view: &View<'_, B>,
    plan: &mut [u64],
    under: Under,
    new: &[u8],
) -> u64
    requires { (view.now.grown.base + 2 ^ B.BITS * (under.taken + 1) ≤ 2 ^ 32) }
    ensures { Took (2 ^ B.BITS) view.now.free.now plan.old view.now.grown.base under.taken
        (data_page (2 ^ B.BITS) (onto (2 ^ B.BITS) view.now.free.now view.now.board.now view.now.grown) under.tree.block under.tree.left under.offset new.now ∷ []) plan.new result }
{
    let c = under.taken;
    let o = under.offset;
    let p = place::<B>(view.grown.base, c);
    if plan.len() as u64 <= p {
        return c + 1;
    }
    let to = pointer::<B>(view.free, c);
    if all_written::<B>(o, new.len() as u64) {
        lay_new(plan, p, to, new);
        return c + 1;
    }
    let own = view.again();
    let w = width::<B>();
    for j in 0..w {
        pair(plan, p + j, to + j, data_word(&own, under.tree, o, new, j));
    }
    c + 1
}

// Whether the block of a tree is made fresh when l bytes are written at o.
pub fn touched<B: BlockSize>(tree: Tree, o: u64, l: u64) -> bool
    requires { Reach B.BITS tree.height }
    ensures { result ≡ touched (2 ^ B.BITS) tree.height tree.block tree.left o l }
{
    let n = tree.left;
    l != 0 || (n < o && tree.block != 0 && n != 0 && n <= span::<B>(tree.height))
}

// The same for a child. `gap` says whether o lies past n in the tree above it: where it does not, as in most writes, only written bytes count.
pub fn child_touched<B: BlockSize>(gap: bool, tree: Tree, o: u64, l: u64) -> bool
    requires { Reach B.BITS tree.height × (gap ≡ false → o ≤ tree.left) }
    ensures { result ≡ touched (2 ^ B.BITS) tree.height tree.block tree.left o l }
{
    if gap {
        return touched::<B>(tree, o, l);
    }
    l != 0
}

// How many blocks a whole tree of height h has.
fn whole<B: BlockSize>(h: u64) -> u64
    requires { Reach B.BITS h }
    ensures { TreeCount (2 ^ B.BITS) h (whole (2 ^ B.BITS) h) result }
{
    if h == 0 {
        return 1;
    }
    start_of::<B>(whole::<B>(h - 1)) + 1
}

// How many fresh blocks a tree of height h takes when l bytes are written from its start: its children are whole, but for one that gets the rest.
pub fn tree_need<B: BlockSize>(h: u64, l: u64) -> u64
    requires { Reach B.BITS h }
    ensures { TreeCount (2 ^ B.BITS) h (need (2 ^ B.BITS) h 0 l) result }
{
    if l == 0 {
        return 0;
    }
    if h == 0 {
        return 1;
    }
    let s = span::<B>(h - 1);
    let q = l / s;
    if width::<B>() <= q {
        return whole::<B>(h);
    }
    q * whole::<B>(h - 1) + tree_need::<B>(h - 1, l - q * s) + 1
}
