// The calls of the checker and the planner (02, request Eleven) for a recording, each with its line: 01's number, and of the planner how many numbers it listed
// and a hash of the list, which holds 7 before.
ghost use Rattle.std.specs.Prelude.{length};
ghost use Rattle.app_answers.specs.Answers.{PlanLeft};

// One call of the checker.
pub fn check_call(width: usize, height: usize, old: &[u8], new: &[u8], picks: &[u32])
    ensures { Unit }
{
    let answer = plan::check::check_plan(width, height, old, new, picks);
    crate::lines::say_alone(wire::number_of(answer));
}

// One call of the planner on a list lent.
pub fn plan_call(width: usize, height: usize, old: &[u8], new: &[u8], list: &mut [u32])
    ensures { PlanLeft width height old.now new.now list.old list.new }
{
    let p = plan::make::make_plan(width, height, old, new, list);
    crate::lines::say_hash(
        wire::number_of(p),
        wire::count_of(p),
        app_recording::lent::hash(list),
    );
}
