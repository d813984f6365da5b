// The calls at one node on its record in lent bytes, defined for every input (specs/), with their theorems (proofs/).
// Of code there are the sizes of a frame, and what shows a view in lent bytes.
#![tactic(auto)]

ghost use Rattle.std.specs.Prelude.{◌≡◌};
ghost use Rattle.octets.specs.Answer.{returned};
ghost use Rattle.step.specs.Told.{told};
ghost use Rattle.calls_bytes.specs.Shown.{event_view};

use step::Ending;
use view::{NODES, VIEW, View, write_view};

// The most bytes of a frame, and the least length of the output buffer for one.
pub const FRAME: usize = 1500;

pub const FRAME_OUTPUT: usize = 8192;

// Writes the view of a scan that ended.
pub fn show_view(ending: Ending, v: View, out: &mut [u8; VIEW])
    ensures { out.new ≡ event_view (told (returned ending) v) out.old }
{
    if let Ending::Scan(_) = ending {
        write_view(NODES, v, out);
    }
}
