// A single word, the tail way, and the choice among ways 4 to 6; `shadows` has the other two. The names of arguments are those of `taking`.
#![tactic(auto)]

ghost use Rattle.std.specs.Prelude.{◌≡◌, ◌&&◌, ◌+◌, ◌*◌, ◌/◌, ◌%◌, ◌^◌, ◌<◌, eqb};
ghost use Rattle.model.specs.Layout.{layout_of};
ghost use Rattle.model.specs.InPlace.{at_block, walk_live};
ghost use Rattle.model.specs.Change.{single_word, empty_tail, tail, chosen_way};
ghost use Rattle.trees.specs.Trees.{Reach};
ghost use Rattle.plans.specs.Onto.{taking, onto};
ghost use Rattle.plans.specs.Laying.{PlanLaid};
ghost use Rattle.shadows.specs.Planning.{Ready, ReadyFor};

use building::{Tail, build, tail_pages};
use kinds::Layout;
use plans::{Count, View, commit, pair};
use shadows::{Target, shadow_inside, shadow_with_length};
use tails::{End, in_place, walk_live};
use taking::{Under, place, pointer, spliced};
use trees::Tree;
use words::{block_of, low_of, start_of, width, word};

// A write to one word of data block k.
pub fn single<L: Layout>(board: &[u64], plan: &mut [u64], k: u64, o: u64, new: &[u8]) -> Count
    requires { k < 2 ^ 54 }
    ensures { PlanLaid plan.old 0 (single_word (layout_of L.kind) board.now k o new.now) plan.new result }
{
    let at = start_of::<L>(k) + o % (8 * width::<L>()) / 8;
    pair(plan, 0, at, spliced(word(board, at), 8, o % 8, new, 0));
    Count { pairs: 1, taken: 0 }
}

// A write into an empty file, at any offset: bytes before it read 0, and pointers that lead to none of the new bytes are null.
fn fill_empty<L: Layout>(
    view: &View<'_, L>,
    plan: &mut [u64],
    pages: &mut [u64],
    target: Target,
    new: &[u8],
) -> Count
    requires { ReadyFor L.kind L.BITS target new.now pages.old view.now.grown }
    ensures { PlanLaid plan.old (view.now.grown.base + 2 ^ L.BITS * view.now.grown.levels)
        (empty_tail (layout_of L.kind) (taking view.now.free.now) (onto (2 ^ L.BITS) view.now.free.now view.now.board.now view.now.grown) target.inode target.offset new.now view.now.grown.levels) plan.new result }
{
    let o = target.offset;
    let at = target.inode.at;
    let e = o + new.len() as u64;
    let h = L::least_height(e);
    let under = Under {
        tree: Tree {
            height: h,
            block: 0,
            left: 0,
        },
        offset: o,
        taken: view.grown.levels,
    };
    let taken = build(view, plan, pages, under, new);
    let q = place::<L>(view.grown.base, taken);
    let root = pointer::<L>(view.free, taken - 1) + h;
    pair(plan, q, at, root);
    let from = place::<L>(view.grown.base, view.grown.levels);
    let pairs = commit(plan, from, q + 1, at + 1, e);
    Count { pairs, taken }
}

// A write at the end of a file whose last live block exists. The offset is the size: what stands in `target.offset` is not read.
fn append<L: Layout>(
    view: &View<'_, L>,
    plan: &mut [u64],
    pages: &mut [u64],
    target: Target,
    new: &[u8],
) -> Count
    requires { (0 < target.inode.size) × Ready L.kind L.BITS target.inode target.inode.size new.now pages.old view.now.grown.base view.now.grown.levels }
    ensures { PlanLaid plan.old (view.now.grown.base + 2 ^ L.BITS * view.now.grown.levels)
        (tail (layout_of L.kind) (taking view.now.free.now) (onto (2 ^ L.BITS) view.now.free.now view.now.board.now view.now.grown) target.inode target.inode.size target.inode.size new.now view.now.grown.levels) plan.new result }
{
    let s = target.inode.size;
    let at = target.inode.at;
    let c = view.grown.levels;
    let tree = Tree::of_root::<L>(target.inode.root, s);
    let tail = Tail { tree, taken: c };
    let taken = tail_pages(view, plan, pages, tail, new);
    let p = place::<L>(view.grown.base, taken);
    let l = new.len() as u64;
    let end = End {
        tree,
        at,
        length: l,
        taken: c,
    };
    let q = in_place(view, plan, p, end, new);
    let from = place::<L>(view.grown.base, c);
    let pairs = commit(plan, from, q, at + 1, s + l);
    Count { pairs, taken }
}

// Whether a write to a file that is not empty is a tail: it begins at the size, and the last live block exists.
fn is_tail<L: Layout>(view: &View<'_, L>, target: Target) -> bool
    requires { Reach L.BITS (target.inode.root % 2 ^ L.BITS) }
    ensures { result ≡ (eqb target.offset target.inode.size
        && at_block (walk_live (2 ^ L.BITS) (onto (2 ^ L.BITS) view.now.free.now view.now.board.now view.now.grown) (target.inode.root % 2 ^ L.BITS) (target.inode.root / 2 ^ L.BITS) target.inode.size)) }
{
    let s = target.inode.size;
    let o = target.offset;
    if o != s {
        return false;
    }
    let h = low_of::<L>(target.inode.root);
    let k = block_of::<L>(target.inode.root);
    let Some(_) = walk_live(view, h, k, s) else {
        return false;
    };
    true
}

// The first of ways 4 to 6 whose condition holds.
pub fn way<L: Layout>(
    view: &View<'_, L>,
    plan: &mut [u64],
    pages: &mut [u64],
    target: Target,
    new: &[u8],
) -> Count
    requires { ReadyFor L.kind L.BITS target new.now pages.old view.now.grown }
    ensures { PlanLaid plan.old (view.now.grown.base + 2 ^ L.BITS * view.now.grown.levels)
        (chosen_way (layout_of L.kind) (taking view.now.free.now) (onto (2 ^ L.BITS) view.now.free.now view.now.board.now view.now.grown) target.inode target.offset new.now view.now.grown.levels) plan.new result }
{
    let s = target.inode.size;
    let o = target.offset;
    if s == 0 {
        return fill_empty(view, plan, pages, target, new);
    }
    if is_tail(view, target) {
        return append(view, plan, pages, target, new);
    }
    if o + new.len() as u64 <= s {
        return shadow_inside(view, plan, pages, target, new);
    }
    shadow_with_length(view, plan, pages, target, new)
}
