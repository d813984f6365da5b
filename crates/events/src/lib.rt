// The events of a cluster (document 01's house): what each of them answers and leaves is defined in specs/, and here is
// how an answer is made.
#![tactic(auto)]

ghost use Rattle.std.specs.Prelude.{◌≡◌};
ghost use Rattle.octets.specs.Answer.{returned, refused};
ghost use Rattle.octets.specs.Test.{pick};
ghost use Rattle.view.specs.View.{no_view};
ghost use Rattle.step.specs.declared.Ending.TheVariants.{None};
ghost use Rattle.events.specs.Outcome.{answer_of, view_by};

use refusal::Refusal;
use step::Ending;
use view::{View, absent};

// What an accepted event gives: how an operation ended, if one did, and the view of it.
#[derive(Clone, Copy)]
pub struct Ended {
    pub ending: Ending,
    pub view: View,
}

// The answer of an event.
pub type Reply = Result<Ended, Refusal>;

// What an accepted event answers: a cut one does not give its ending.
pub fn given(cut: bool, ending: Ending, view: View) -> Reply
    ensures { (answer_of result ≡ returned (pick cut None ending)) × (view_by result ≡ pick cut no_view view) }
{
    if cut {
        Ok(Ended {
            ending: Ending::None,
            view: absent(),
        })
    } else {
        Ok(Ended { ending, view })
    }
}

// What an event that steps a node answers: that it is refused where a channel had no room.
pub fn answered(room: bool, cut: bool, ending: Ending, view: View) -> Reply
    ensures { (answer_of result ≡ pick room (returned (pick cut None ending)) (refused 11))
        × (view_by result ≡ pick room (pick cut no_view view) no_view) }
{
    if room {
        given(cut, ending, view)
    } else {
        Err(Refusal::Full)
    }
}
