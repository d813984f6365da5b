// A session: a text of lines that run a cluster in lent memory, and what is printed for them. The text comes in pieces
// of any sizes, and what is kept between them has a fixed size. The definitions are in specs/.
#![tactic(auto)]

ghost use Rattle.std.specs.Prelude.{◌≡◌, ◌≤◌, length, take};
ghost use Rattle.octets.specs.Bytes.{put};
ghost use Rattle.session_progress.specs.Progress.{piece_size, text_size};
ghost use Rattle.session.specs.Turn.{turned};

pub use session_byte::MEMORY;
use session_byte::step;
pub use session_progress::{PIECE, Progress, TEXT, Turn, finish, is_over, start};

// Reads a piece of the text, the first `count` bytes of `piece` or all of them.
fn read_bytes(
    m: &mut [u8; MEMORY],
    p: Progress,
    piece: &[u8],
    count: usize,
    out: &mut [u8; TEXT],
) -> Turn
    requires { length piece.now ≤ piece_size }
    ensures { (result.progress ≡ (turned p (take count piece.now) m.old).progress)
        × (m.new ≡ (turned p (take count piece.now) m.old).memory)
        × (out.new
        ≡ put out.old 0 (turned p (take count piece.now) m.old).text)
        × (result.end ≡ length (turned p (take count piece.now) m.old).text)
        × (result.end ≤ text_size) }
{
    let front = &piece[..count.min(piece.len())];
    let mut progress = p;
    let mut end = 0;
    for x in front {
        let t = step(m, progress, *x, out, end);
        progress = t.progress;
        end = t.end;
    }
    Turn { progress, end }
}

// The same of a piece of any size that there is room for: every line that ends in it is run, all that is printed for it
// is written at the front of `out`, and the other bytes stay.
pub fn read(
    m: &mut [u8; MEMORY],
    p: Progress,
    piece: &[u8; PIECE],
    count: usize,
    out: &mut [u8; TEXT],
) -> Turn
    ensures { (result.progress ≡ (turned p (take count piece.now) m.old).progress)
        × (m.new ≡ (turned p (take count piece.now) m.old).memory)
        × (out.new
        ≡ put out.old 0 (turned p (take count piece.now) m.old).text)
        × (result.end ≡ length (turned p (take count piece.now) m.old).text)
        × (result.end ≤ text_size) }
{
    read_bytes(m, p, piece, count, out)
}
