// Plans: pairs of address and value in a lent slice. A pair off the slice is not stored, so a planner that is run on an empty slice only counts.
#![tactic(auto)]

ghost use Rattle.std.specs.Prelude.{◌≡◌, ◌≢◌, ℕ, [], ◌∷◌, ◌-◌, ◌^◌, ◌≤◌, ◌<◌, MatchOption, get_or};
ghost use Rattle.model.specs.Tree.{cell, link};
ghost use Rattle.model.specs.Store.{store, barrier, laid};
ghost use Rattle.model.specs.Change.{level_below};
ghost use Rattle.plans.specs.Laying.{block_stores, closing, Laid};
ghost use Rattle.plans.specs.Onto.{taking, onto, NotGrown, Pointers};

use std::marker::PhantomData;
use words::{BlockSize, block_of, low_of, put, start_of, width, word};

// Lays a pair at place p. The last word of a slice of odd length is half a pair's place.
pub fn pair(plan: &mut [u64], p: u64, at: u64, value: u64)
    ensures { plan.new ≡ laid plan.old p (store at value ∷ []) }
{
    let n = plan.len() as u64;
    if p < n / 2 {
        plan[(2 * p) as usize] = at;
        plan[(2 * p + 1) as usize] = value;
        return;
    }
    if p < n {
        put(plan, 2 * p, at);
    }
}

// Lays a barrier at place p.
pub fn barrier(plan: &mut [u64], p: u64)
    ensures { plan.new ≡ laid plan.old p (barrier ∷ []) }
{
    pair(plan, p, 18446744073709551615, 0);
}

// Lays the stores of block k, in word order, from place p on: the words of a page. Compiled into format, where the page is known, without a test.
#[inline(always)]
pub fn block<B: BlockSize>(plan: &mut [u64], p: u64, k: u64, page: &[u64])
    requires { k < 2 ^ 54 }
    ensures { plan.new ≡ laid plan.old p (block_stores (2 ^ B.BITS) k page.now) }
{
    if p < plan.len() as u64 {
        let w = width::<B>();
        let to = start_of::<B>(k);
        for j in 0..w {
            pair(plan, p + j, to + j, word(page, j));
        }
    }
}

// Ends a step whose hidden stores were laid from place `from` up to p: a barrier, if there are any, and the commit. Answers the next place.
pub fn commit(plan: &mut [u64], from: u64, p: u64, at: u64, value: u64) -> u64
    requires { p ≤ 2 ^ 32 }
    ensures { Laid plan.old p (closing (p - from) (store at value)) plan.new result }
{
    let mut q = p;
    if from < p {
        barrier(plan, p);
        q += 1;
    }
    pair(plan, q, at, value);
    q + 1
}

// How many pairs a plan has and how many fresh blocks it takes.
#[derive(Clone, Copy)]
pub struct Count {
    pub pairs: u64,
    pub taken: u64,
}

// Growth that is planned and not performed yet: `levels` fresh blocks over block `below`, the first free ones, and the root word at address `at`. `base`
// is how many pairs of the plan then stand for no fresh block.
#[derive(Clone, Copy)]
pub struct Grown {
    pub below: u64,
    pub levels: u64,
    pub at: u64,
    pub root: u64,
    pub base: u64,
}

// No growth: the address is on no board.
pub fn not_grown() -> Grown
    ensures { NotGrown result }
{
    Grown {
        below: 0,
        levels: 0,
        at: 18446744073709551615,
        root: 0,
        base: 0,
    }
}

// The block under level t of growth over block k: that block, or the level before.
pub fn level_below(free: &[u64], k: u64, t: u64) -> u64
    ensures { result ≡ level_below (taking free.now) k t }
{
    if t == 0 { k } else { word(free, t - 1) }
}

// The last of the first t levels whose block is k.
fn level_of(free: &[u64], t: u64, k: u64) -> Option<u64>
    ensures { MatchOption result ((i : ℕ) → i < t → get_or free.now i 0 ≢ k)
        (λ i. (i < t) × (get_or free.now i 0 ≡ k) × ((j : ℕ) → i < j → j < t → get_or free.now j 0 ≢ k)) }
{
    (0..t).rev().find(|&i| word(free, i) == k)
}

// What a plan reads and what it may take: a board with the growth `grown` performed, and a table that lists the free blocks.
#[derive(Drop)]
pub struct View<'a, B: BlockSize> {
    pub board: &'a [u64],
    pub free: &'a [u64],
    pub grown: Grown,
    pub size: PhantomData<B>,
    ghost pointers: { Pointers B.BITS free.now grown },
}

impl<B: BlockSize> View<'_, B> {
    // The same view once more. A loop that lays stores keeps the parts of one of its own in registers; it would read those of a lent one anew for each store.
    #[inline(always)]
    pub fn again(&self) -> View<'_, B>
        ensures { (result.board.now ≡ self.now.board.now) × (result.free.now ≡ self.now.free.now) × (result.grown ≡ self.now.grown) }
    {
        View {
            board: self.board,
            free: self.free,
            grown: self.grown,
            size: PhantomData,
        }
    }

    // The word at an index of the board with growth performed.
    pub fn word(&self, at: u64) -> u64
        ensures { result ≡ get_or (onto (2 ^ B.BITS) self.now.free.now self.now.board.now self.now.grown) at 0 }
    {
        if self.board.len() as u64 <= at {
            return 0;
        }
        if at == self.grown.at {
            return self.grown.root;
        }
        let Some(t) = level_of(self.free, self.grown.levels, block_of::<B>(at)) else {
            return word(self.board, at);
        };
        if low_of::<B>(at) != 0 {
            return 0;
        }
        start_of::<B>(level_below(self.free, self.grown.below, t))
    }

    // Word j of block k there.
    pub fn cell(&self, k: u64, j: u64) -> u64
        ensures { result ≡ cell (2 ^ B.BITS) (onto (2 ^ B.BITS) self.now.free.now self.now.board.now self.now.grown) k j }
    {
        let n = self.board.len() as u64;
        if block_of::<B>(n) < k {
            return 0;
        }
        let start = start_of::<B>(k);
        if n - start <= j {
            return 0;
        }
        self.word(start + j)
    }

    // The same where k may be null.
    pub fn link(&self, k: u64, j: u64) -> u64
        ensures { result ≡ link (2 ^ B.BITS) (onto (2 ^ B.BITS) self.now.free.now self.now.board.now self.now.grown) k j }
    {
        if k == 0 {
            return 0;
        }
        self.cell(k, j)
    }
}
