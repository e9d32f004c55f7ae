// The call that stores: perform.
#![tactic(auto)]

ghost use Rattle.std.specs.Prelude.{◌≡◌, ◌||◌, take, ltb};
ghost use Rattle.model.specs.Lists.{all};
ghost use Rattle.model.specs.Layout.{layout_of};
ghost use Rattle.model.specs.Store.{is_barrier, performed, stores, paired};
ghost use Rattle.performing.specs.Results.{PerformResult};

use boards::word_count_sound;
use kinds::Layout;
use model::{Answer, Fault};
use words::put;

// Whether each of the first k addresses of a plan is on a board of so many words or a barrier's.
fn addresses_sound(words: u64, plan: &[u64], k: u64) -> bool
    ensures { result ≡ all (λ s. ltb s.at words || is_barrier s) (take k (paired plan.now)) }
{
    plan.chunks_exact(2)
        .take(k as usize)
        .all(|pair| pair[0] < words || pair[0] == u64::MAX)
}

// Performs the first k pairs of a plan. A barrier's address is off the board, and is stored nowhere.
fn store_all(board: &mut [u64], plan: &[u64], k: u64)
    ensures { board.new ≡ performed board.old (stores (take k (paired plan.now))) }
{
    for pair in plan.chunks_exact(2).take(k as usize) {
        put(board, pair[0], pair[1]);
    }
}

// Perform: the first `pairs` pairs of a plan on a board. Answers their number, or refused 1, 9, 10.
pub fn perform<L: Layout>(board: &mut [u64], plan: &[u64], pairs: u64) -> Answer
    ensures { PerformResult (layout_of L.kind) board.old plan.now pairs result board.new }
{
    if !word_count_sound::<L>(board) {
        return Err(Fault::WordCount);
    }
    if plan.len() as u64 / 2 < pairs {
        return Err(Fault::PairCount);
    }
    let words = board.len() as u64;
    if !addresses_sound(words, plan, pairs) {
        return Err(Fault::Address);
    }
    store_all(board, plan, pairs);
    Ok(pairs)
}
