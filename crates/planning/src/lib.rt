// Plans of writes and length changes, once no refusal up to 6 turns the call away. `free` lists the free blocks; `pages` has room for a page on each level
// of a tree.
#![tactic(auto)]

ghost use Rattle.std.specs.Prelude.{◌≤◌};
ghost use Rattle.model.specs.Layout.{layout_of};
ghost use Rattle.model.specs.Board.{greatest};
ghost use Rattle.model.specs.Plan.{pairs};
ghost use Rattle.model.specs.Change.{grown_plan, write_plan, length_plan};
ghost use Rattle.plans.specs.Laying.{Laid, PlanLaid};
ghost use Rattle.plans.specs.Onto.{taking};
ghost use Rattle.shadows.specs.Planning.{Pages};
ghost use Rattle.planning.specs.Asked.{File, Growable, Asked};

use boards::{lent_inode, root_address};
use growing::{grow, grown_root, grows};
use kinds::Layout;
use model::Inode;
use plans::{Count, Grown, View, barrier, commit, not_grown, pair};
use shadows::Target;
use std::marker::PhantomData;
use tails::clear_in_place;
use trees::{Tree, root_walk};
use ways::{single, way};
use words::{block_of, start_of, word};

// Plans growth, where it is due, and what follows on the grown board.
fn plan_grown<L: Layout>(
    board: &[u64],
    free: &[u64],
    plan: &mut [u64],
    pages: &mut [u64],
    target: Target,
    new: &[u8],
) -> Count
    requires { Pages L.kind L.BITS pages.old × Growable L.kind target.inode target.offset new.now free.now }
    ensures { PlanLaid plan.old 0
        (grown_plan (layout_of L.kind) (taking free.now) board.now target.inode target.offset new.now) plan.new result }
{
    let inode = target.inode;
    let o = target.offset;
    let e = o + new.len() as u64;
    if !grows::<L>(inode, e) {
        let view = View {
            board,
            free,
            grown: not_grown(),
            size: PhantomData,
        };
        return way::<L>(&view, plan, pages, target, new);
    }
    let h = L::least_height(e);
    let count = grow::<L>(free, plan, inode, h);
    barrier(plan, count.pairs);
    let base = count.pairs + 1 - start_of::<L>(count.taken);
    let root = grown_root::<L>(free, inode.root, h);
    let grown = Grown {
        below: block_of::<L>(inode.root),
        levels: count.taken,
        at: inode.at,
        root,
        base,
    };
    let next = Target {
        inode: Inode { root, ..inode },
        ..target
    };
    let view = View {
        board,
        free,
        grown,
        size: PhantomData,
    };
    way::<L>(&view, plan, pages, next, new)
}

// A write as it is asked for: at `offset` of a file.
#[derive(Clone, Copy)]
pub struct Request {
    pub file: u64,
    pub offset: u64,
}

// Plans a write. A single word is never one that growth comes before, so the lent board decides it. The inode is read here. Below, only a shadow inside
// the file reads the word again that it commits to, for its low bits, and that may be the root.
pub fn plan_write<L: Layout>(
    board: &[u64],
    free: &[u64],
    plan: &mut [u64],
    pages: &mut [u64],
    request: Request,
    new: &[u8],
) -> Count
    requires { Pages L.kind L.BITS pages.old × Asked L.kind board.now request.file request.offset new.now free.now }
    ensures { PlanLaid plan.old 0
        (write_plan (layout_of L.kind) (taking free.now) board.now request.file request.offset new.now) plan.new result }
{
    let o = request.offset;
    let inode = lent_inode::<L>(board, request.file);
    let target = Target { inode, offset: o };
    let e = o + new.len() as u64;
    if inode.size < e {
        return plan_grown::<L>(board, free, plan, pages, target, new);
    }
    if o / 8 != (e - 1) / 8 {
        return plan_grown::<L>(board, free, plan, pages, target, new);
    }
    let Some(k) = root_walk::<L>(board, inode.root, inode.size, o) else {
        return plan_grown::<L>(board, free, plan, pages, target, new);
    };
    single::<L>(board, plan, k, o, new)
}

// Plans a length change to n. Answers how many pairs there are.
pub fn plan_length<L: Layout>(board: &[u64], plan: &mut [u64], file: u64, n: u64) -> u64
    requires { File L.kind board.now file × (n ≤ greatest (layout_of L.kind)) }
    ensures { Laid plan.old 0 (pairs (length_plan (layout_of L.kind) board.now file n)) plan.new result }
{
    let at = root_address::<L>(board, file);
    let root = word(board, at);
    let s = word(board, at + 1);
    if n == s {
        return 0;
    }
    if n < s {
        return commit(plan, 0, 0, at + 1, n);
    }
    if s == 0 {
        pair(plan, 0, at, 0);
        return commit(plan, 0, 1, at + 1, n);
    }
    let tree = Tree::of_root::<L>(root, s);
    let q = clear_in_place::<L>(board, plan, 0, tree, n - s, at);
    commit(plan, 0, q, at + 1, n)
}
