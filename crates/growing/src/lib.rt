// Way 2 of planning a write, growth: whether it comes first, and its plan. The names of arguments are those of `taking`.
#![tactic(auto)]

ghost use Rattle.std.specs.Prelude.{◌≡◌, ◌+◌, ◌-◌, ◌*◌, ◌/◌, ◌%◌, ◌^◌, ◌≤◌, ◌<◌};
ghost use Rattle.model.specs.Layout.{layout_of};
ghost use Rattle.model.specs.Change.{levels, level_top, growth_to, growing};
ghost use Rattle.plans.specs.Onto.{taking, Blocks};
ghost use Rattle.taking.specs.Taking.{Took};
ghost use Rattle.plans.specs.Laying.{PlanLaid};

use kinds::Layout;
use model::Inode;
use plans::{Count, commit, level_below};
use taking::take;
use trees::span;
use words::{BlockSize, block_of, low_of, start_of};

// Whether a write that ends at e makes a file's tree grow first.
pub fn grows<L: Layout>(inode: Inode, e: u64) -> bool
    requires { (0 < inode.size → inode.root % (layout_of L.kind).words ≤ (layout_of L.kind).height) }
    ensures { result ≡ growing (layout_of L.kind) inode e }
{
    inode.size != 0 && span::<L>(low_of::<L>(inode.root)) < e
}

// Lays the fresh blocks of growth over block k, one for each of d levels. Answers how many are taken.
fn levels<B: BlockSize>(free: &[u64], plan: &mut [u64], k: u64, d: u64) -> u64
    requires { Blocks free.now × (2 ^ B.BITS * k < 2 ^ 64) × (d ≤ 8) }
    ensures { Took (2 ^ B.BITS) free.now plan.old 0 0 (levels (2 ^ B.BITS) (taking free.now) k d) plan.new result }
{
    if k == 0 {
        return 0;
    }
    if d == 0 {
        return 0;
    }
    let t = levels::<B>(free, plan, k, d - 1);
    let page = [start_of::<B>(level_below(free, k, t))];
    take::<B>(free, plan, 0, &page, t)
}

// The root word of a tree grown to height h. `root` is the one before.
pub fn grown_root<B: BlockSize>(free: &[u64], root: u64, h: u64) -> u64
    requires { Blocks free.now × (root % 2 ^ B.BITS ≤ h) × (h < 8) }
    ensures { result ≡ 2 ^ B.BITS * level_top (taking free.now) (root / 2 ^ B.BITS) (h - root % 2 ^ B.BITS) + h }
{
    let k = block_of::<B>(root);
    if k == 0 {
        return h;
    }
    let top = level_below(free, k, h - low_of::<B>(root));
    start_of::<B>(top) + h
}

// Growth of a file's tree to height h.
pub fn grow<L: Layout>(free: &[u64], plan: &mut [u64], inode: Inode, h: u64) -> Count
    requires { Blocks free.now × (inode.root % (layout_of L.kind).words ≤ h) × (h < 8) }
    ensures { PlanLaid plan.old 0 (growth_to (layout_of L.kind) (taking free.now) inode h) plan.new result }
{
    let root = inode.root;
    let taken = levels::<L>(free, plan, block_of::<L>(root), h - low_of::<L>(root));
    let value = grown_root::<L>(free, root, h);
    let pairs = commit(plan, 0, start_of::<L>(taken), inode.at, value);
    Count { pairs, taken }
}
