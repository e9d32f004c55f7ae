// The text of a listing, line by line.
#![tactic(auto)]

ghost use Rattle.std.specs.Prelude.{[], ◌++◌, ◌+◌, ◌<◌, ◌^◌, length};
ghost use Rattle.model.specs.Lister.{decimal, field, line, word_blocks, word_free, word_file, word_size, word_height, word_held, word_refused};
ghost use Rattle.text.specs.Wrote.{Wrote};

use itoa::Buffer;

// Text that is written into a buffer: `len` bytes, of which those off the buffer are not stored.
// `len` never wraps: each function requires that the most bytes it can write end below 2^64.
#[derive(Drop)]
pub struct Text<'a> {
    pub out: &'a mut [u8],
    pub len: usize,
}

impl Text<'_> {
    // Adds a text.
    fn push_str(&mut self, text: &str)
        requires { self.old.len + length text.now < 2 ^ 64 }
        ensures { Wrote (length text.now) text.now self.old self.new }
    {
        for &b in text.as_bytes() {
            if self.len < self.out.len() {
                self.out[self.len] = b;
            }
            self.len += 1;
        }
    }

    // Adds a label, and a number in decimal.
    fn push_number(&mut self, label: &str, n: u64)
        requires { self.old.len + length label.now + 20 < 2 ^ 64 }
        ensures { Wrote (length label.now + 20) (label.now ++ decimal n) self.old self.new }
    {
        self.push_str(label);
        self.push_str(Buffer::new().format(n));
    }

    // The line of an image that is refused.
    pub fn refused_line(&mut self, number: u64)
        requires { self.old.len + 29 < 2 ^ 64 }
        ensures { Wrote 29 (line word_refused number []) self.old self.new }
    {
        self.push_number("refused ", number);
        self.push_str("\n");
    }

    // The line of a board: its blocks, and how many are free.
    pub fn board_line(&mut self, blocks: u64, free: u64)
        requires { self.old.len + 54 < 2 ^ 64 }
        ensures { Wrote 54 (line word_blocks blocks (field word_free free)) self.old self.new }
    {
        self.push_number("blocks ", blocks);
        self.push_number(" free ", free);
        self.push_str("\n");
    }

    // The line of a file: its number, size, root's height, and the blocks held.
    pub fn file_line(&mut self, number: u64, size: u64, height: u64, held: u64)
        requires { self.old.len + 106 < 2 ^ 64 }
        ensures { Wrote 106 (line word_file number (field word_size size ++ field word_height height ++ field word_held held)) self.old self.new }
    {
        self.push_number("file ", number);
        self.push_number(" size ", size);
        self.push_number(" height ", height);
        self.push_number(" held ", held);
        self.push_str("\n");
    }
}
