// What the lister program prints for a board image.
#![tactic(auto)]

ghost use Rattle.std.specs.Prelude.{◌+◌, ◌<◌, ◌^◌};
ghost use Rattle.model.specs.Lists.{joined};
ghost use Rattle.model.specs.Layout.{house};
ghost use Rattle.model.specs.Calls.{check_answer};
ghost use Rattle.model.specs.Lister.{file_line, answer_lines};
ghost use Rattle.text.specs.Wrote.{Wrote};
ghost use Rattle.listing.specs.Listed.{Listed};

use images::load;
use kinds::{House, block_in, low_in};
use text::Text;

// The line of file f, none where its size is 0.
fn file(board: &[u64], text: &mut Text<'_>, f: u64)
    requires { text.old.len + 106 < 2 ^ 64 }
    ensures { Wrote 106 (file_line house board.now f) text.old text.new }
{
    let n = boards::size::<House>(board, f);
    if n == 0 {
        return;
    }
    let root = boards::root::<House>(board, f);
    let height = low_in::<House>(root);
    let held = trees::held_count::<House>(board, height, block_in::<House>(root), n);
    text.file_line(f, n, height, held)
}

// The lines of the files.
fn files(board: &[u64], text: &mut Text<'_>)
    requires { text.old.len + 3392 < 2 ^ 64 }
    ensures { Wrote 3392 (joined 32 (file_line house board.now)) text.old text.new }
{
    for f in 0..32 {
        file(board, text, f);
    }
}

// The lines of a board, or of its refusal.
fn lines(board: &[u64], text: &mut Text<'_>)
    requires { text.old.len + 3446 < 2 ^ 64 }
    ensures { Wrote 3446 (answer_lines house board.now (check_answer house board.now)) text.old text.new }
{
    match reading::free_count::<House>(board) {
        Ok(free) => {
            let blocks = boards::block_count::<House>(board);
            text.board_line(blocks, free);
            files(board, text);
        }
        Err(fault) => {
            let n = u64::from(fault);
            text.refused_line(n);
        }
    }
}

// The listing of an image, at most 4,096 bytes, to the front of a buffer, as far as that goes. The answer is its length.
pub fn list(image: &[u8], out: &mut [u8]) -> usize
    ensures { Listed image.now out.old result out.new }
{
    let mut words = [0u64; 8192];
    let board = load(image, &mut words);
    let mut text = Text { out, len: 0 };
    lines(board, &mut text);
    text.len
}
