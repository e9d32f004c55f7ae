// A board image: eight bytes to a word, byte 0 first.
#![tactic(auto)]

ghost use Rattle.std.specs.Prelude.{◌≡◌, ◌≤◌, length};
ghost use Rattle.images.specs.Images.{board_of, Loaded};

use words::decode;

// Decodes an image into a buffer and answers how many words its board has: none where the image is refused for its byte count.
pub fn load_words(image: &[u8], words: &mut [u64]) -> usize
    requires { 8192 ≤ length words.old }
    ensures { Loaded image.now result words.new }
{
    let n = image.len();
    if n % 8 != 0 || 65536 < n {
        return 0;
    }
    decode(image, words);
    n / 8
}

// The same, with the words of the board lent.
pub fn load<'a>(image: &[u8], words: &'a mut [u64]) -> &'a [u64]
    requires { 8192 ≤ length words.old }
    ensures { result.now ≡ board_of image.now }
{
    let n = load_words(image, words);
    &words[..n]
}
