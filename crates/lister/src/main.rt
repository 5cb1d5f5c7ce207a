// The listing program: the budget and the marks on standard input, the listing or the line of a refusal on standard output. All but the
// input and output is `listing::list::answer`. Of an input that cannot be read to its end there is no listing: standard output stays empty, and
// standard error says why.
#![tactic(auto)]

ghost use Rattle.std.specs.Io.{ReadsAtMost};

use listing::list::answer;
use std::io;
use std::io::{Read, Write};

// Reads until the input ends, the buffer is full or a read fails, and says how many bytes stand at the buffer's start: the whole input, or as
// much as the buffer takes. Where a read failed, what was read before it may be a part of the input.
fn read_input(input: &mut impl Read, text: &mut [u8]) -> io::Result<usize>
    ensures fits { ReadsAtMost result text.new }
{
    let mut n = 0;
    // A turn counts as many bytes as its read gave: no `for` goes by such steps. `read_exact` of std makes an early end an error and does not say how
    // much it read, and `read_to_end` needs a heap.
    while n < text.len() {
        let k = input.read(&mut text[n..])?;
        if k == 0 {
            break;
        }
        n += k;
    }
    Ok(n)
}

// Reads what is left of the input, so that whoever writes it is not cut off. After 65,536 reads it stops.
fn drain(input: &mut impl Read) {
    let mut rest = [0u8; 65536];
    for _ in 0..65536 {
        let Ok(1..) = input.read(&mut rest) else {
            return;
        };
    }
}

// Answers the text of the input.
fn list(output: &mut impl Write, text: &[u8]) -> io::Result<()> {
    let mut status = [0u8; 8128];
    let mut out = [0u8; 138240];
    let k = answer(text, &mut status, &mut out);
    output.write_all(&out[..k])
}

fn main(rt: HostRuntime) -> io::Result<()> {
    let mut input = rt.stdin();
    let mut text = [0u8; 4097];
    let Ok(n) = read_input(&mut input, &mut text) else {
        return rt
            .stderr()
            .write_all(b"lister: standard input cannot be read\n");
    };
    if n == text.len() {
        drain(&mut input);
    }
    list(&mut rt.stdout(), &text[..n])
}
