// The calls that read a board: check, free count, size, read, and the walk to a byte. Each answers what the definition of its name answers, on all
// inputs; a refusal leaves the caller's buffer as it was. The walk is a call of house boards alone.
#![tactic(auto)]

ghost use Rattle.std.specs.Prelude.{◌≡◌};
ghost use Rattle.model.specs.Layout.{house, layout_of};
ghost use Rattle.model.specs.Board.{walk_to};
ghost use Rattle.model.specs.Calls.{free_count_answer, size_answer};
ghost use Rattle.reading.specs.Results.{ReadResult};

use kinds::{House, Layout};
use model::Answer;
pub use surveying::check;
use surveying::{check_file, survey, unmarked};
use trees::root_walk;

// Free count: the number of free blocks, or refused 1, 2, 3.
pub fn free_count<L: Layout>(board: &[u64]) -> Answer
    ensures { result ≡ free_count_answer (layout_of L.kind) board.now }
{
    let mut live = [0u64; 1024];
    survey::<L>(board, &mut live)?;
    let top = boards::last::<L>(board);
    Ok(unmarked(&live, top))
}

// Size: a file's size, or refused 1, 2, 3, 4.
pub fn size<L: Layout>(board: &[u64], file: u64) -> Answer
    ensures { result ≡ size_answer (layout_of L.kind) board.now file }
{
    check_file::<L>(board, file)?;
    Ok(boards::size::<L>(board, file))
}

// Read: fills `out` from byte `offset` on and answers the count, or refused 1, 2, 3, 4.
pub fn read<L: Layout>(board: &[u64], file: u64, offset: u64, out: &mut [u8]) -> Answer
    ensures { ReadResult (layout_of L.kind) board.now file offset out.old result out.new }
{
    check_file::<L>(board, file)?;
    let root = boards::root::<L>(board, file);
    let n = boards::size::<L>(board, file);
    let count = files::fill::<L>(board, root, n, offset, out);
    Ok(count as u64)
}

// The walk to a byte of a file. It looks at no more of the board than its path, and refuses nothing; what is null on the way, on whichever board, reads as
// zeros, and a file above 31 is a hole.
pub fn walk_to(board: &[u64], file: u64, byte: u64) -> Option<u64>
    ensures { result ≡ walk_to house board.now file byte }
{
    if 32 <= file {
        return None;
    }
    let root = boards::linked_word::<House>(board, file, 0);
    let n = boards::linked_word::<House>(board, file, 1);
    root_walk::<House>(board, root, n, byte)
}
