// The calls of published boards as C functions, for tests and benchmarks from outside: N11 of document 02 gives these boards no C forms, so no header
// names them and no program is to link them. They stand apart from `hosts`, so that the archives for C are compiled for the house's width alone.
#![tactic(auto)]

ghost use Rattle.std.specs.Prelude.{◌≡◌};
ghost use Rattle.model.specs.Layout.{published};
ghost use Rattle.model.specs.Answers.{signed};
ghost use Rattle.model.specs.Calls.{check_answer, free_count_answer, size_answer, write, set_length, format};
ghost use Rattle.forms.specs.Results.{WordsRead, WordsPlan, WordsPerform};

use answers::signed;
use kinds::Published;

#[unsafe(no_mangle)]
pub extern "C" fn probe_check(board: &[u64]) -> i64
    ensures { result ≡ signed (check_answer published board.now) }
{
    signed(reading::check::<Published>(board))
}

#[unsafe(no_mangle)]
pub extern "C" fn probe_free_count(board: &[u64]) -> i64
    ensures { result ≡ signed (free_count_answer published board.now) }
{
    signed(reading::free_count::<Published>(board))
}

#[unsafe(no_mangle)]
pub extern "C" fn probe_size(board: &[u64], file: u64) -> i64
    ensures { result ≡ signed (size_answer published board.now file) }
{
    signed(reading::size::<Published>(board, file))
}

#[unsafe(no_mangle)]
pub extern "C" fn probe_read(board: &[u64], file: u64, offset: u64, out: &mut [u8]) -> i64
    ensures { WordsRead published board.now file offset out.old result out.new }
{
    signed(reading::read::<Published>(board, file, offset, out))
}

#[unsafe(no_mangle)]
pub extern "C" fn probe_write(
    board: &[u64],
    file: u64,
    offset: u64,
    bytes: &[u8],
    plan: &mut [u64],
) -> i64
    ensures { WordsPlan (write published board.now file offset bytes.now plan.old) result plan.new }
{
    signed(changing::write::<Published>(board, file, offset, bytes, plan))
}

#[unsafe(no_mangle)]
pub extern "C" fn probe_set_length(board: &[u64], file: u64, length: u64, plan: &mut [u64]) -> i64
    ensures { WordsPlan (set_length published board.now file length plan.old) result plan.new }
{
    signed(changing::set_length::<Published>(board, file, length, plan))
}

#[unsafe(no_mangle)]
pub extern "C" fn probe_format(board: &[u64], plan: &mut [u64]) -> i64
    ensures { WordsPlan (format published board.now plan.old) result plan.new }
{
    signed(formatting::format::<Published>(board, plan))
}

#[unsafe(no_mangle)]
pub extern "C" fn probe_perform(board: &mut [u64], plan: &[u64], pairs: u64) -> i64
    ensures { WordsPerform published board.old plan.now pairs result board.new }
{
    signed(performing::perform::<Published>(board, plan, pairs))
}
