// Fresh trees: the blocks on all paths to written bytes, and where these begin past the size, on the path to the last byte below it, laid into a plan.
// The board is read through a view, with growth performed; `taken` counts the blocks taken.
#![tactic(auto)]

ghost use Rattle.std.specs.Prelude.{◌≡◌, true, ◌+◌, ◌*◌, ◌^◌, ◌≤◌, length};
ghost use Rattle.trees.specs.Trees.{Reach};
ghost use Rattle.taking.specs.Taking.{Took};
ghost use Rattle.building.specs.Building.{own_fresh, fresh_count, fresh_pages, end_count, end_pages};

use plans::View;
use taking::{Under, child_touched, part, place, pointer, take, take_data, touched, tree_need};
use trees::{Tree, span};
use words::{BlockSize, put, width};

// Lays the fresh blocks of a tree, its own among them, with `new` written. Answers how many are taken then. `pages` has room for a page on each level. Off
// the plan a tree that is written from its start is only counted.
fn build_fresh<B: BlockSize>(
    view: &View<'_, B>,
    plan: &mut [u64],
    pages: &mut [u64],
    under: Under,
    new: &[u8],
) -> u64
    requires { Reach B.BITS under.tree.height × (2 ^ B.BITS * under.tree.height ≤ length pages.old) × (own_fresh B.BITS under new.now ≡ true)
        × (view.now.grown.base + 2 ^ B.BITS * (under.taken + fresh_count B.BITS view.now.board.now view.now.free.now view.now.grown under new.now) ≤ 2 ^ 32) }
    ensures { Took (2 ^ B.BITS) view.now.free.now plan.old view.now.grown.base under.taken
        (fresh_pages B.BITS view.now.board.now view.now.free.now view.now.grown under new.now) plan.new result }
{
    let h = under.tree.height;
    let k = under.tree.block;
    let n = under.tree.left;
    let o = under.offset;
    let c = under.taken;
    if h == 0 {
        return take_data(view, plan, under, new);
    }
    if plan.len() as u64 <= place::<B>(view.grown.base, c) && o == 0 {
        return c + tree_need::<B>(h, new.len() as u64);
    }
    let s = span::<B>(h - 1);
    let w = width::<B>();
    let rest = w as usize;
    let gap = n < o;
    let mut taken = c;
    // Child j gets `own`, written at p.
    for j in 0..w {
        let first = j * s;
        let p = o.saturating_sub(first);
        let own = part(new, s, j, o);
        let x = view.link(k, j);
        let child = under.tree.child::<B>(s, j, x);
        let value = if child_touched::<B>(gap, child, p, own.len() as u64) {
            let below = Under {
                tree: child,
                offset: p,
                taken,
            };
            taken = build_fresh(view, plan, &mut pages[rest..], below, own);
            pointer::<B>(view.free, taken - 1)
        } else if first < n {
            x
        } else {
            0
        };
        put(pages, j, value);
    }
    take::<B>(view.free, plan, view.grown.base, pages, taken)
}

// Lays the fresh blocks of a tree, of which there may be none, with `new` written. Answers how many are taken then.
pub fn build<B: BlockSize>(
    view: &View<'_, B>,
    plan: &mut [u64],
    pages: &mut [u64],
    under: Under,
    new: &[u8],
) -> u64
    requires { Reach B.BITS under.tree.height × (2 ^ B.BITS * under.tree.height ≤ length pages.old)
        × (view.now.grown.base + 2 ^ B.BITS * (under.taken + fresh_count B.BITS view.now.board.now view.now.free.now view.now.grown under new.now) ≤ 2 ^ 32) }
    ensures { Took (2 ^ B.BITS) view.now.free.now plan.old view.now.grown.base under.taken
        (fresh_pages B.BITS view.now.board.now view.now.free.now view.now.grown under new.now) plan.new result }
{
    if !touched::<B>(under.tree, under.offset, new.len() as u64) {
        return under.taken;
    }
    build_fresh(view, plan, pages, under, new)
}

// Bytes written at the end of a tree, `taken` blocks being taken before.
#[derive(Clone, Copy)]
pub struct Tail {
    pub tree: Tree,
    pub taken: u64,
}

// Lays the fresh subtrees of a write at the end of a tree: those under pointers that aren't live and lead to written bytes. Answers how many blocks are
// taken then.
pub fn tail_pages<B: BlockSize>(
    view: &View<'_, B>,
    plan: &mut [u64],
    pages: &mut [u64],
    tail: Tail,
    new: &[u8],
) -> u64
    requires { Reach B.BITS tail.tree.height × (2 ^ B.BITS * tail.tree.height ≤ length pages.old)
        × (view.now.grown.base + 2 ^ B.BITS * (tail.taken + end_count B.BITS tail new.now) ≤ 2 ^ 32) }
    ensures { Took (2 ^ B.BITS) view.now.free.now plan.old view.now.grown.base tail.taken
        (end_pages B.BITS view.now.board.now view.now.free.now view.now.grown tail new.now) plan.new result }
{
    let h = tail.tree.height;
    let k = tail.tree.block;
    let n = tail.tree.left;
    let c = tail.taken;
    if n == 0 {
        let fresh = Under {
            tree: Tree {
                height: h,
                block: 0,
                left: 0,
            },
            offset: 0,
            taken: c,
        };
        return build(view, plan, pages, fresh, new);
    }
    if h == 0 {
        return c;
    }
    let s = span::<B>(h - 1);
    let w = width::<B>();
    let mut taken = c;
    // The children before n / s get no byte, and none behind one that gets none.
    for j in n / s..w {
        let own = part(new, s, j, n);
        if own.is_empty() {
            return taken;
        }
        let x = view.link(k, j);
        let below = Tail {
            tree: tail.tree.child::<B>(s, j, x),
            taken,
        };
        taken = tail_pages(view, plan, pages, below, own);
    }
    taken
}
