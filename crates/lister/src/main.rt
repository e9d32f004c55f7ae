// Prints what the board image on standard input holds: the blocks, and each file that is not empty. A refused image prints only its refusal.
#![tactic(auto)]

ghost use Rattle.std.specs.Prelude.{◌≤◌, length};

use std::io;
use std::io::Read;

// Reads until the buffer is full, the input ends or a read fails: then a read gives no bytes. The answer is how many bytes stand at the buffer's start.
fn read_full<R: Read>(input: &mut R, buf: &mut [u8]) -> usize
    ensures { result ≤ length buf.new }
{
    let mut done = 0;
    while let Ok(n @ 1..) = input.read(&mut buf[done..]) {
        done += n;
    }
    done
}

fn main(rt: HostRuntime) -> io::Result<()> {
    // One byte more than the largest image has, so that a larger one is seen.
    let mut image = [0u8; 65537];
    let mut input = rt.stdin();
    // A read of no bytes answers whether there is an input.
    if let Err(e) = input.read(&mut image[..0]) {
        return eprintln!(rt; "lister: standard input: {e}");
    }
    let n = read_full(&mut input, &mut image);
    let mut text = [0u8; 4096];
    let length = listing::list(&image[..n], &mut text);
    if let Err(e) = rt.write_all(&text[..length]) {
        return eprintln!(rt; "lister: standard output: {e}");
    }
    Ok(())
}
