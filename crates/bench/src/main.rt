// Document 01's bench program: a session from standard input, and what it prints to standard output. It reads a piece,
// hands it to the session, writes what the session printed for it, and so on. Input of any length is read in constant
// memory. A read that fails ends the input; a write that fails is passed over.
#![tactic(auto)]

ghost use Rattle.std.specs.Prelude.{◌≤◌};
ghost use Rattle.session_progress.specs.Progress.{text_size};

use session::{MEMORY, PIECE, TEXT};
use std::io::{Read, Stdin, Stdout, Write};

// Prints the front of a buffer.
fn print(to: &mut Stdout, out: &[u8; TEXT], end: usize)
    requires { end ≤ text_size }
{
    let _ = to.write_all(&out[..end]);
}

// A proved loop has to end, and nothing says that the input does. So the reads are counted, up to a number that no run
// reaches.
fn run_all(
    from: &mut Stdin,
    to: &mut Stdout,
    m: &mut [u8; MEMORY],
    piece: &mut [u8; PIECE],
    out: &mut [u8; TEXT],
) {
    let mut now = session::start();
    for _ in 0..u64::MAX {
        let count = from.read(piece).unwrap_or(0);
        let t = session::read(m, now, piece, count, out);
        print(to, out, t.end);
        now = t.progress;
        if count == 0 || session::is_over(now) {
            break;
        }
    }
    let end = session::finish(now, out);
    print(to, out, end);
}

fn main(rt: HostRuntime) {
    let mut memory = [0u8; MEMORY];
    let mut piece = [0u8; PIECE];
    let mut out = [0u8; TEXT];
    run_all(
        &mut rt.stdin(),
        &mut rt.stdout(),
        &mut memory,
        &mut piece,
        &mut out,
    );
}
