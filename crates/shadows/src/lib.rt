// The shadows: a write within the size, committed at one pointer, and one that ends past it, committed at the inode pointer. The names of arguments are
// those of `taking`.
#![tactic(auto)]

ghost use Rattle.std.specs.Prelude.{◌≡◌, [], ◌∷◌, ◌+◌, ◌*◌, ◌^◌, ◌≤◌, ◌<◌, length};
ghost use Rattle.model.specs.Layout.{layout_of};
ghost use Rattle.model.specs.Tree.{span};
ghost use Rattle.model.specs.Change.{shadow_inside, leaf_page, shadow_with_length};
ghost use Rattle.trees.specs.Trees.{Reach};
ghost use Rattle.plans.specs.Onto.{taking, onto};
ghost use Rattle.taking.specs.Taking.{Took};
ghost use Rattle.plans.specs.Laying.{PlanLaid};
ghost use Rattle.shadows.specs.Planning.{Descended, ReadyFor};

use building::build;
use kinds::Layout;
use model::Inode;
use plans::{Count, View, commit, pair};
use taking::{Under, place, pointer};
use trees::{Tree, span};
use words::{BlockSize, block_of, low_of, start_of, width};

// Where bytes are written: at `offset` of the file with this inode.
#[derive(Clone, Copy)]
pub struct Target {
    pub inode: Inode,
    pub offset: u64,
}

// A tree, the offset in it where bytes are written, and the address of its pointer.
#[derive(Clone, Copy)]
struct Spot {
    tree: Tree,
    offset: u64,
    at: u64,
}

// Goes down from a spot while the tree's block exists, isn't data and all of `new` lies under one of its pointers. Answers the spot where that ends.
fn descend<B: BlockSize>(view: &View<'_, B>, spot: Spot, new: &[u8]) -> Spot
    requires { Reach B.BITS spot.tree.height × (2 ^ B.BITS * spot.tree.block + 2 ^ B.BITS ≤ 2 ^ 64) × (spot.offset < span (2 ^ B.BITS) spot.tree.height) × (length new.now ≤ 2 ^ 32) }
    ensures { Descended (2 ^ B.BITS) (onto (2 ^ B.BITS) view.now.free.now view.now.board.now view.now.grown)
        spot.tree.height spot.tree.block spot.tree.left spot.offset new.now spot.at result }
{
    let h = spot.tree.height;
    let k = spot.tree.block;
    let o = spot.offset;
    if h == 0 {
        return spot;
    }
    if k == 0 {
        return spot;
    }
    let s = span::<B>(h - 1);
    let rest = o % s;
    if s < rest + new.len() as u64 {
        return spot;
    }
    let j = o / s;
    let p = view.cell(k, j);
    let below = Spot {
        tree: spot.tree.child::<B>(s, j, p),
        offset: rest,
        at: start_of::<B>(k) + j,
    };
    descend(view, below, new)
}

// A write within the size, committed at one pointer.
pub fn shadow_inside<L: Layout>(
    view: &View<'_, L>,
    plan: &mut [u64],
    pages: &mut [u64],
    target: Target,
    new: &[u8],
) -> Count
    requires { (0 < target.inode.size) × ReadyFor L.kind L.BITS target new.now pages.old view.now.grown }
    ensures { PlanLaid plan.old (view.now.grown.base + 2 ^ L.BITS * view.now.grown.levels)
        (shadow_inside (layout_of L.kind) (taking view.now.free.now) (onto (2 ^ L.BITS) view.now.free.now view.now.board.now view.now.grown) target.inode target.offset new.now view.now.grown.levels) plan.new result }
{
    let top = Spot {
        tree: Tree::of_root::<L>(target.inode.root, target.inode.size),
        offset: target.offset,
        at: target.inode.at,
    };
    let spot = descend(view, top, new);
    let under = Under {
        tree: spot.tree,
        offset: spot.offset,
        taken: view.grown.levels,
    };
    let taken = build(view, plan, pages, under, new);
    let low = low_of::<L>(view.word(spot.at));
    let value = pointer::<L>(view.free, taken - 1) + low;
    let from = place::<L>(view.grown.base, view.grown.levels);
    let end = place::<L>(view.grown.base, taken);
    let pairs = commit(plan, from, end, spot.at, value);
    Count { pairs, taken }
}

// Word j of the inode leaf that has this inode, in which its root and its size may be new.
fn leaf_word<B: BlockSize>(view: &View<'_, B>, inode: Inode, j: u64) -> u64
    ensures { result ≡ leaf_page (2 ^ B.BITS) (onto (2 ^ B.BITS) view.now.free.now view.now.board.now view.now.grown) inode.at inode.root inode.size j }
{
    let at = inode.at;
    let slot = low_of::<B>(at);
    if j == slot {
        return inode.root;
    }
    if j == slot + 1 {
        return inode.size;
    }
    view.cell(block_of::<B>(at), j)
}

// Takes the next free block for that leaf and lays its stores. Answers how many are taken then.
fn take_leaf<B: BlockSize>(view: &View<'_, B>, plan: &mut [u64], inode: Inode, c: u64) -> u64
    requires { (view.now.grown.base + 2 ^ B.BITS * (c + 1) ≤ 2 ^ 32) }
    ensures { Took (2 ^ B.BITS) view.now.free.now plan.old view.now.grown.base c
        (leaf_page (2 ^ B.BITS) (onto (2 ^ B.BITS) view.now.free.now view.now.board.now view.now.grown) inode.at inode.root inode.size ∷ []) plan.new result }
{
    let p = place::<B>(view.grown.base, c);
    if plan.len() as u64 <= p {
        return c + 1;
    }
    let to = pointer::<B>(view.free, c);
    let own = view.again();
    let w = width::<B>();
    for j in 0..w {
        pair(plan, p + j, to + j, leaf_word(&own, inode, j));
    }
    c + 1
}

// A write that ends past the size, committed at the inode pointer.
pub fn shadow_with_length<L: Layout>(
    view: &View<'_, L>,
    plan: &mut [u64],
    pages: &mut [u64],
    target: Target,
    new: &[u8],
) -> Count
    requires { (0 < target.inode.size) × ReadyFor L.kind L.BITS target new.now pages.old view.now.grown }
    ensures { PlanLaid plan.old (view.now.grown.base + 2 ^ L.BITS * view.now.grown.levels)
        (shadow_with_length (layout_of L.kind) (taking view.now.free.now) (onto (2 ^ L.BITS) view.now.free.now view.now.board.now view.now.grown) target.inode target.offset new.now view.now.grown.levels) plan.new result }
{
    let s = target.inode.size;
    let o = target.offset;
    let tree = Tree::of_root::<L>(target.inode.root, s);
    let under = Under {
        tree,
        offset: o,
        taken: view.grown.levels,
    };
    let e = o + new.len() as u64;
    let taken = build(view, plan, pages, under, new);
    let after = Inode {
        root: pointer::<L>(view.free, taken - 1) + tree.height,
        size: s.max(e),
        ..target.inode
    };
    let all = take_leaf(view, plan, after, taken);
    let from = place::<L>(view.grown.base, view.grown.levels);
    let end = place::<L>(view.grown.base, all);
    let value = pointer::<L>(view.free, taken);
    let pairs = commit(plan, from, end, target.inode.pointer, value);
    Count { pairs, taken: all }
}
