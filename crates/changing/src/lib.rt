// The calls that change a file: write and length change. Each reads the board and writes a plan; it stores nothing on the board. A plan is first worked
// out on an empty part of the slice, for refusals 7 and 8, and then laid.
#![tactic(auto)]

ghost use Rattle.model.specs.Layout.{layout_of};
ghost use Rattle.model.specs.Calls.{write, set_length};
ghost use Rattle.plans.specs.Laying.{PlanResult};
ghost use Rattle.shadows.specs.Planning.{Pages};
ghost use Rattle.changing.specs.Stock.{Stocked};

use boards::last;
use kinds::{Layout, words_in};
use model::{Answer, Fault};
use planning::{Request, plan_length, plan_write};
use surveying::{check_file, list_free, survey};

// Write, where no refusal up to 6 turns it away and there is a byte to write: `free` lists the free blocks, `count` of them.
fn write_some<L: Layout>(
    board: &[u64],
    free: &[u64],
    count: u64,
    plan: &mut [u64],
    pages: &mut [u64],
    request: Request,
    new: &[u8],
) -> Answer
    requires { Pages L.kind L.BITS pages.old × Stocked L.kind board.now request.file request.offset new.now free.now count }
    ensures { PlanResult (write (layout_of L.kind) board.now request.file request.offset new.now plan.old) result plan.new }
{
    let all = plan.len();
    let wanted = plan_write::<L>(board, free, &mut plan[..0], pages, request, new);
    if count < wanted.taken {
        return Err(Fault::FreeBlocks);
    }
    if all as u64 / 2 < wanted.pairs {
        return Err(Fault::PlanLength);
    }
    plan_write::<L>(board, free, plan, pages, request, new);
    Ok(wanted.pairs)
}

// Write, with room for a page on each level of a tree.
fn write_with<L: Layout>(
    board: &[u64],
    file: u64,
    offset: u64,
    bytes: &[u8],
    plan: &mut [u64],
    pages: &mut [u64],
) -> Answer
    requires { Pages L.kind L.BITS pages.old }
    ensures { PlanResult (write (layout_of L.kind) board.now file offset bytes.now plan.old) result plan.new }
{
    let mut marks = [0u64; 1024];
    survey::<L>(board, &mut marks)?;
    if 31 < file {
        return Err(Fault::FileNumber);
    }
    let most = L::SIZE;
    if most < offset {
        return Err(Fault::End);
    }
    if most - offset < bytes.len() as u64 {
        return Err(Fault::End);
    }
    if bytes.len() == 0 {
        return Ok(0);
    }
    let mut free = [0u64; 1024];
    let count = list_free(&marks, last::<L>(board), &mut free);
    let request = Request { file, offset };
    write_some::<L>(board, &free, count, plan, pages, request, bytes)
}

// Write: plans `bytes` at `offset` of a file. Answers the pair count, or refused 1, 2, 3, 4, 6, 7, 8.
pub fn write<L: Layout>(
    board: &[u64],
    file: u64,
    offset: u64,
    bytes: &[u8],
    plan: &mut [u64],
) -> Answer
    ensures { PlanResult (write (layout_of L.kind) board.now file offset bytes.now plan.old) result plan.new }
{
    // A house board's pages are short; they are cleared at each call.
    if words_in::<L>() * L::HEIGHT <= 24 {
        return write_with::<L>(board, file, offset, bytes, plan, &mut [0; 24]);
    }
    write_with::<L>(board, file, offset, bytes, plan, &mut [0; 512])
}

// Length change: plans `length` as a file's size. Answers the pair count, or refused 1, 2, 3, 4, 6, 8.
pub fn set_length<L: Layout>(board: &[u64], file: u64, length: u64, plan: &mut [u64]) -> Answer
    ensures { PlanResult (set_length (layout_of L.kind) board.now file length plan.old) result plan.new }
{
    check_file::<L>(board, file)?;
    if L::SIZE < length {
        return Err(Fault::End);
    }
    let all = plan.len();
    let pairs = plan_length::<L>(board, &mut plan[..0], file, length);
    if all as u64 / 2 < pairs {
        return Err(Fault::PlanLength);
    }
    plan_length::<L>(board, plan, file, length);
    Ok(pairs)
}
