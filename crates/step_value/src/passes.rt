// How the open operation moves on until it must wait: four passes, each tried once.
ghost use Rattle.std.specs.Prelude.{◌≡◌, true};
ghost use Rattle.record.specs.Usable.{usable};
ghost use Rattle.step.specs.Move.{reads, writes, compares, borrows, move_on};

use decide::ending_of;
use record::Wait;
use record::changes::{closed_node, waiting_node};
use rounds_value::{after_failed, after_good, after_read, ended_step};
use step::{Rule, Step};
use table::quorum::{agreeing_nodes, is_quorum, members};
use view::first_of;

#[tactic(auto, unfolding(step::specs::Move::read_pass))]
pub fn read_pass(f: usize, s: Step) -> Step
    requires { usable s.node ≡ true }
    ensures { result ≡ reads f s }
{
    let c = s.node;
    match c.wait {
        Wait::Reading {
            operation,
            answered,
            largest,
        } if is_quorum(c.n, f, members(c.n, answered)) => {
            after_read(s, c, operation, largest.max(c.maxtag))
        }
        _ => s,
    }
}

#[tactic(auto, unfolding(step::specs::Move::write_pass))]
pub fn write_pass(f: usize, s: Step) -> Step
    requires { usable s.node ≡ true }
    ensures { result ≡ writes f s }
{
    let c = s.node;
    match c.wait {
        Wait::Writing {
            kind,
            round,
            tag,
            answered,
        } if is_quorum(c.n, f, members(c.n, answered)) => {
            let node = waiting_node(c, Wait::Comparing { kind, round, tag });
            Step { node, ..s }
        }
        _ => s,
    }
}

#[tactic(auto, unfolding(step::specs::Move::compare_pass))]
pub fn compare_pass(f: usize, s: Step) -> Step
    requires { usable s.node ≡ true }
    ensures { result ≡ compares f s }
{
    let c = s.node;
    match c.wait {
        Wait::Comparing { kind, round, tag }
            if is_quorum(
                c.n,
                f,
                agreeing_nodes(c.n, c.own, &c.heard, &c.atround.tags),
            ) => {
            if c.maxtag <= tag {
                after_good(s, c, kind, round, tag)
            } else {
                after_failed(s, c, kind, round, tag)
            }
        }
        _ => s,
    }
}

#[tactic(auto, unfolding(step::specs::Move::borrow_pass))]
pub fn borrow_pass(s: Step) -> Step
    requires { usable s.node ≡ true }
    ensures { result ≡ borrows s }
{
    let c = s.node;
    match c.wait {
        Wait::Borrowing { kind, tag } if tag <= c.kept => ended_step(
            s,
            closed_node(c, Wait::Idle),
            ending_of(kind, Rule::Borrowed),
            first_of(c.n, c.keptview),
        ),
        _ => s,
    }
}

// The open operation moves on until it must wait. One run of each pass is enough, also from a record that no run
// reaches: what a pass leads to, a later one takes up, and a round that opens has no answers yet.
#[tactic(auto, unfolding(step::specs::Move::move_on))]
pub fn move_on(f: usize, s: Step) -> Step
    requires { usable s.node ≡ true }
    ensures { result ≡ move_on f s }
{
    borrow_pass(compare_pass(f, write_pass(f, read_pass(f, s))))
}
