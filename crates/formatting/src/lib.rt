// Format: plans 32 empty files on a board of some kind. It stores nothing itself.
#![tactic(auto)]

ghost use Rattle.std.specs.Prelude.{◌≡◌, [], ◌∷◌, ◌+◌, ◌*◌, replicate};
ghost use Rattle.model.specs.Layout.{published, layout_of};
ghost use Rattle.model.specs.Store.{laid};
ghost use Rattle.model.specs.Plan.{pairs};
ghost use Rattle.model.specs.Fresh.{stored};
ghost use Rattle.model.specs.Format.{inode_page, trailer_stores, format_plan};
ghost use Rattle.model.specs.Calls.{format};
ghost use Rattle.plans.specs.Laying.{PlanResult};
ghost use Rattle.formatting.specs.Places.{Place};

use boards::{block_count, last, trailer_word, word_count_sound};
use kinds::{Layout, start_in, words_in};
use model::{Answer, Fault};
use plans::{barrier, block, pair};

// How many pairs of format's plan come before the trailer's words.
fn trailer_place<L: Layout>() -> u64
    ensures { Place L.kind result }
{
    2 + words_in::<L>() * (1 + L::LEAVES)
}

// Word j of the inode pointer block of a new board: its leaves lie from block 2 on.
fn pointer_word<L: Layout>(j: u64) -> u64
    ensures { result ≡ inode_page (layout_of L.kind) j }
{
    if j < L::LEAVES {
        return start_in::<L>(2 + j);
    }
    0
}

// Lays block 1 of a new board, the inode pointers.
fn lay_pointers<L: Layout>(plan: &mut [u64])
    ensures { plan.new ≡ laid plan.old 2 (stored (layout_of L.kind).words (λ c. c) (inode_page (layout_of L.kind) ∷ []) 1) }
{
    let w = words_in::<L>();
    for j in 0..w {
        pair(plan, 2 + j, w + j, pointer_word::<L>(j));
    }
}

// Lays the empty leaves, from block 2 on. A page of no words is laid as zeros.
fn lay_leaves<L: Layout>(plan: &mut [u64])
    ensures { plan.new ≡ laid plan.old (2 + (layout_of L.kind).words) (stored (layout_of L.kind).words (λ c. c) (replicate (layout_of L.kind).leaves (λ j. 0)) 2) }
{
    let w = words_in::<L>();
    let n = L::LEAVES;
    for l in 0..n {
        block::<L>(plan, 2 + w + w * l, 2 + l, &[]);
    }
}

// Lays the words of a new board's trailer from word 1 on.
fn lay_trailer<L: Layout>(board: &[u64], plan: &mut [u64])
    ensures { plan.new ≡ laid plan.old (2 + (layout_of L.kind).words * (1 + (layout_of L.kind).leaves)) (trailer_stores (layout_of L.kind) board.now) }
{
    let blocks = block_count::<L>(board);
    let at = start_in::<L>(last::<L>(board));
    let p = trailer_place::<L>();
    let n = words_in::<L>() - 1;
    for j in 0..n {
        pair(plan, p + j, at + j + 1, trailer_word::<L>(blocks, j + 1));
    }
}

// Lays the pairs that make 32 empty files.
fn lay_format<L: Layout>(board: &[u64], plan: &mut [u64])
    ensures { plan.new ≡ laid plan.old 0 (pairs (format_plan (layout_of L.kind) board.now)) }
{
    let at = start_in::<L>(last::<L>(board));
    let w = words_in::<L>();
    let p = trailer_place::<L>() + w;
    pair(plan, 0, at, 0);
    barrier(plan, 1);
    lay_pointers::<L>(plan);
    lay_leaves::<L>(plan);
    lay_trailer::<L>(board, plan);
    barrier(plan, p - 1);
    pair(plan, p, at, w + 1);
}

// Format: plans 32 empty files on a board. Answers the pair count, or refused 1, 8.
pub fn format<L: Layout>(board: &[u64], plan: &mut [u64]) -> Answer
    ensures { PlanResult (format (layout_of L.kind) board.now plan.old) result plan.new }
{
    if !word_count_sound::<L>(board) {
        return Err(Fault::WordCount);
    }
    let n = trailer_place::<L>() + words_in::<L>() + 1;
    if (plan.len() as u64) < 2 * n {
        return Err(Fault::PlanLength);
    }
    lay_format::<L>(board, plan);
    Ok(n)
}
