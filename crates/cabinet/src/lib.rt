// The calls of the cabinet's C program, on a board image held as bytes. Each answers what the definition of its name answers, on all inputs.
#![tactic(auto)]

ghost use Rattle.std.specs.Prelude.{◌≡◌};
ghost use Rattle.model.specs.Layout.{house};
ghost use Rattle.model.specs.Cabinet.{image_check, image_size};
ghost use Rattle.cabinet.specs.Results.{ImageReadResult};

use answers::signed;
use images::load;
use kinds::House;

// Check: 0, or -1, -2, -3.
#[unsafe(no_mangle)]
pub extern "C" fn montebeech_check(image: &[u8]) -> i64
    ensures { result ≡ image_check house image.now }
{
    let mut words = [0u64; 8192];
    let board = load(image, &mut words);
    signed(reading::check::<House>(board))
}

// Size: a file's size, or -1, -2, -3, -4.
#[unsafe(no_mangle)]
pub extern "C" fn montebeech_size(image: &[u8], file: u64) -> i64
    ensures { result ≡ image_size house image.now file }
{
    let mut words = [0u64; 8192];
    let board = load(image, &mut words);
    signed(reading::size::<House>(board, file))
}

// Read: fills `out` from byte `offset` on and answers the count, or -1, -2, -3, -4.
#[unsafe(no_mangle)]
pub extern "C" fn montebeech_read(image: &[u8], file: u64, offset: u64, out: &mut [u8]) -> i64
    ensures { ImageReadResult image.now file offset out.old result out.new }
{
    let mut words = [0u64; 8192];
    let board = load(image, &mut words);
    signed(reading::read::<House>(board, file, offset, out))
}
