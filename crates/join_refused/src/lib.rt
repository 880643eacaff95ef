// The premises of the any-order rule on two lists and a desk, tested in the order of their numbers (document 02, L7).
#![tactic(auto)]

ghost use Rattle.memory_layout.specs.Refusals.{number_of};
ghost use Rattle.memory_view.specs.View.{IsWellFormed};
ghost use Rattle.join_refused.specs.Refused.{BothAloneOn, RefusedOn};

use memory_layout::refusal::Refusal;
use memory_view::DeskView;

// Whether every call of both lists is accepted alone.
fn both_alone(desk: DeskView, first: &[u8], second: &[u8]) -> bool
    requires { IsWellFormed desk }
    ensures { BothAloneOn first.now second.now desk.entry result }
{
    join_alone::each_alone(desk, first) && join_alone::each_alone(desk, second)
}

// Tests every premise on two lists of records: 18, 19, then 13 where one is not kept.
pub fn test_premises(desk: DeskView, first: &[u8], second: &[u8]) -> Result<(), Refusal>
    requires { IsWellFormed desk }
    ensures { RefusedOn first.now second.now desk.entry (number_of result) }
{
    if !join_apart::apart(desk.source.len(), first, second) {
        return Err(Refusal::NotApart);
    }
    if !both_alone(desk, first, second) {
        return Err(Refusal::RefusedAlone);
    }
    if !join_space::has_space(desk, first, second) {
        return Err(Refusal::Limit);
    }
    Ok(())
}
