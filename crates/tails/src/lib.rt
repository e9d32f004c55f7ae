// Writing at the end of a file in place: stores to words that exist. The names of arguments are those of `taking`; n is both the end of the tree's
// visible bytes and the place where `new` is written. A loop over children of s bytes each goes from child n / s to the first
// that gets no byte: those before and behind get none.
#![tactic(auto)]

ghost use Rattle.std.specs.Prelude.{◌≡◌, ◌+◌, ◌*◌, ◌^◌, ◌≤◌, ◌<◌, length};
ghost use Rattle.model.specs.InPlace.{tail_need, walk_live};
ghost use Rattle.trees.specs.Trees.{Reach};
ghost use Rattle.plans.specs.Laying.{Laid};
ghost use Rattle.plans.specs.Onto.{Blocks, onto};
ghost use Rattle.taking.specs.Taking.{TreeCount};
ghost use Rattle.tails.specs.Stores.{hooks, words_at, stores_at, cleared_at};

use plans::{View, not_grown, pair};
use std::marker::PhantomData;
use taking::{data_word, part, part_length, pointer, tree_need};
use trees::{Tree, span};
use words::{BlockSize, block_of, start_of, width};

// The walk to byte n of the tree (h, k, n), the first past its visible bytes, along live pointers: a hole where one of them is null.
pub fn walk_live<B: BlockSize>(view: &View<'_, B>, h: u64, k: u64, n: u64) -> Option<u64>
    requires { Reach B.BITS h }
    ensures { result ≡ walk_live (2 ^ B.BITS) (onto (2 ^ B.BITS) view.now.free.now view.now.board.now view.now.grown) h k n }
{
    if h != 0 {
        let s = span::<B>(h - 1);
        if n % s != 0 {
            let below = block_of::<B>(view.link(k, n / s));
            return walk_live(view, h - 1, below, n % s);
        }
    }
    if k == 0 {
        return None;
    }
    if n == 0 {
        return None;
    }
    Some(k)
}

// Bytes written at the end of a tree whose pointer stands at address `at`: how many, and how many blocks are taken before.
#[derive(Clone, Copy)]
pub struct End {
    pub tree: Tree,
    pub at: u64,
    pub length: u64,
    pub taken: u64,
}

// Lays the words of a data block that hold some of the bytes written at its end, from place p on: `new` is what is written, and zeros behind it. Answers
// the next place.
fn tail_words<B: BlockSize>(
    view: &View<'_, B>,
    plan: &mut [u64],
    p: u64,
    end: End,
    new: &[u8],
) -> u64
    requires { (2 ^ B.BITS * end.tree.block + 2 ^ B.BITS ≤ 2 ^ 64) × (p + length (words_at B.BITS view.now.board.now view.now.free.now view.now.grown end new.now) ≤ 2 ^ 32) }
    ensures { Laid plan.old p (words_at B.BITS view.now.board.now view.now.free.now view.now.grown end new.now) plan.new result }
{
    let n = end.tree.left;
    let l = end.length;
    let w = width::<B>();
    let to = start_of::<B>(end.tree.block);
    let mut q = p;
    for j in n / 8..w {
        if part_length(8, j, n, l) == 0 {
            return q;
        }
        let value = data_word(view, end.tree, n, new, j);
        pair(plan, q, to + j, value);
        q += 1;
    }
    q
}

// How many fresh blocks l bytes take that are written at the end, n, of a tree of height h.
fn tail_need<B: BlockSize>(h: u64, n: u64, l: u64) -> u64
    requires { Reach B.BITS h }
    ensures { TreeCount (2 ^ B.BITS) h (tail_need (2 ^ B.BITS) h n l) result }
{
    if l == 0 {
        return 0;
    }
    if n == 0 {
        return tree_need::<B>(h, l);
    }
    if h == 0 {
        return 0;
    }
    let s = span::<B>(h - 1);
    let w = width::<B>();
    let mut count = 0;
    for j in n / s..w {
        let own = part_length(s, j, n, l);
        if own == 0 {
            return count;
        }
        count += tail_need::<B>(h - 1, n.saturating_sub(j * s), own);
    }
    count
}

// The pointer to the fresh tree of height h that l bytes get, c blocks being taken before: the last block that it takes.
fn hook<B: BlockSize>(free: &[u64], h: u64, l: u64, c: u64) -> u64
    requires { Reach B.BITS h × Blocks free.now × (0 < l) × (c ≤ 2 ^ 32) }
    ensures { result ≡ hooks (2 ^ B.BITS) free.now h l c }
{
    let taken = c + tree_need::<B>(h, l);
    pointer::<B>(free, taken - 1)
}

// Lays the stores to words that exist, from place p on, where bytes are written at the end of a tree: `new`, and zeros behind it. Answers the next place.
pub fn in_place<B: BlockSize>(
    view: &View<'_, B>,
    plan: &mut [u64],
    p: u64,
    end: End,
    new: &[u8],
) -> u64
    requires { Reach B.BITS end.tree.height × (2 ^ B.BITS * end.tree.block + 2 ^ B.BITS ≤ 2 ^ 64) × (length new.now ≤ end.length)
        × (end.taken + tail_need (2 ^ B.BITS) end.tree.height end.tree.left end.length ≤ 2 ^ 32) × (p + length (stores_at B.BITS view.now.board.now view.now.free.now view.now.grown end new.now) ≤ 2 ^ 32) }
    ensures { Laid plan.old p (stores_at B.BITS view.now.board.now view.now.free.now view.now.grown end new.now) plan.new result }
{
    let h = end.tree.height;
    let k = end.tree.block;
    let n = end.tree.left;
    let l = end.length;
    let c = end.taken;
    let a = end.at;
    if n == 0 {
        if l == 0 {
            return p;
        }
        pair(plan, p, a, hook::<B>(view.free, h, l, c));
        return p + 1;
    }
    if k == 0 {
        return p;
    }
    if h == 0 {
        return tail_words(view, plan, p, end, new);
    }
    let s = span::<B>(h - 1);
    let w = width::<B>();
    let to = start_of::<B>(k);
    let mut taken = c;
    let mut q = p;
    // Child j gets `own`, and zeros behind it up to `most` bytes.
    for j in n / s..w {
        let most = part_length(s, j, n, l);
        if most == 0 {
            return q;
        }
        let own = part(new, s, j, n);
        let x = view.cell(k, j);
        let below = End {
            tree: end.tree.child::<B>(s, j, x),
            at: to + j,
            length: most,
            taken,
        };
        q = in_place(view, plan, q, below, own);
        taken += tail_need::<B>(h - 1, below.tree.left, most);
    }
    q
}

// The same where l zeros are written and no other bytes. By an empty table of free blocks a pointer that isn't live gets 0.
pub fn clear_in_place<B: BlockSize>(
    board: &[u64],
    plan: &mut [u64],
    p: u64,
    tree: Tree,
    l: u64,
    a: u64,
) -> u64
    requires { Reach B.BITS tree.height × (2 ^ B.BITS * tree.block + 2 ^ B.BITS ≤ 2 ^ 64) × (p + length (cleared_at B.BITS board.now tree l a) ≤ 2 ^ 32) }
    ensures { Laid plan.old p (cleared_at B.BITS board.now tree l a) plan.new result }
{
    let view = View {
        board,
        free: &[],
        grown: not_grown(),
        size: PhantomData,
    };
    let end = End {
        tree,
        at: a,
        length: l,
        taken: 0,
    };
    in_place::<B>(&view, plan, p, end, &[])
}
