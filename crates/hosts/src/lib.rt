// The calls for hosts that hold a board as words. Each answers what the definition of its name answers, as C gets it, and leaves what that leaves, on all
// inputs.
#![tactic(auto)]

ghost use Rattle.std.specs.Prelude.{◌≡◌};
ghost use Rattle.model.specs.Layout.{house};
ghost use Rattle.model.specs.Board.{walk_to};
ghost use Rattle.model.specs.Answers.{signed, ended};
ghost use Rattle.model.specs.Calls.{check_answer, free_count_answer, size_answer, write, set_length, format};
ghost use Rattle.forms.specs.Results.{WordsRead, WordsPlan, WordsPerform};

use answers::signed;
use kinds::House;

// Check: 0, or -1, -2, -3.
#[unsafe(no_mangle)]
pub extern "C" fn montebeech_words_check(board: &[u64]) -> i64
    ensures { result ≡ signed (check_answer house board.now) }
{
    signed(reading::check::<House>(board))
}

// Free count: the number of free blocks, or -1, -2, -3.
#[unsafe(no_mangle)]
pub extern "C" fn montebeech_words_free_count(board: &[u64]) -> i64
    ensures { result ≡ signed (free_count_answer house board.now) }
{
    signed(reading::free_count::<House>(board))
}

// Size: a file's size, or -1, -2, -3, -4.
#[unsafe(no_mangle)]
pub extern "C" fn montebeech_words_size(board: &[u64], file: u64) -> i64
    ensures { result ≡ signed (size_answer house board.now file) }
{
    signed(reading::size::<House>(board, file))
}

// Read: fills `out` from byte `offset` on and answers the count, or -1, -2, -3, -4.
#[unsafe(no_mangle)]
pub extern "C" fn montebeech_words_read(
    board: &[u64],
    file: u64,
    offset: u64,
    out: &mut [u8],
) -> i64
    ensures { WordsRead house board.now file offset out.old result out.new }
{
    signed(reading::read::<House>(board, file, offset, out))
}

// The walk to a byte of a file: the number of the block where it ends, 0 for a hole. It refuses nothing.
#[unsafe(no_mangle)]
pub extern "C" fn montebeech_words_walk(board: &[u64], file: u64, byte: u64) -> i64
    ensures { result ≡ ended (walk_to house board.now file byte) }
{
    let end = reading::walk_to(board, file, byte);
    let Some(k) = end else {
        return 0;
    };
    k as i64
}

// Write: plans `bytes` at `offset` of a file and answers the pair count, or -1, -2, -3, -4, -6, -7, -8.
#[unsafe(no_mangle)]
pub extern "C" fn montebeech_words_write(
    board: &[u64],
    file: u64,
    offset: u64,
    bytes: &[u8],
    plan: &mut [u64],
) -> i64
    ensures { WordsPlan (write house board.now file offset bytes.now plan.old) result plan.new }
{
    signed(changing::write::<House>(board, file, offset, bytes, plan))
}

// Length change: plans `length` as a file's size and answers the pair count, or -1, -2, -3, -4, -6, -8.
#[unsafe(no_mangle)]
pub extern "C" fn montebeech_words_set_length(
    board: &[u64],
    file: u64,
    length: u64,
    plan: &mut [u64],
) -> i64
    ensures { WordsPlan (set_length house board.now file length plan.old) result plan.new }
{
    signed(changing::set_length::<House>(board, file, length, plan))
}

// Format: plans 32 empty files and answers the pair count, or -1, -8.
#[unsafe(no_mangle)]
pub extern "C" fn montebeech_words_format(board: &[u64], plan: &mut [u64]) -> i64
    ensures { WordsPlan (format house board.now plan.old) result plan.new }
{
    signed(formatting::format::<House>(board, plan))
}

// Perform: the first `pairs` pairs of a plan; answers their number, or -1, -9, -10.
#[unsafe(no_mangle)]
pub extern "C" fn montebeech_words_perform(board: &mut [u64], plan: &[u64], pairs: u64) -> i64
    ensures { WordsPerform house board.old plan.now pairs result board.new }
{
    signed(performing::perform::<House>(board, plan, pairs))
}
