// The selection and the planner. Both layouts have passed all of admission.
ghost use Rattle.std.specs.Prelude.{◌≡◌, length};
ghost use Rattle.planner.specs.Planner.{planned_of, after_plan};
ghost use Rattle.planner.specs.Select.{selected_of};

use limits::refusal::Failure;

// The selection of dbn's Upgrader::new: which target record the source's record k is upgraded to, if any; one of the schema first, if one is wanted.
pub fn select(
    cat: &[u8],
    source: &[u8],
    k: usize,
    target: &[u8],
    schema: Option<u16>,
) -> Result<Option<usize>, Failure>
    ensures { result ≡ selected_of cat.now source.now k target.now schema }
{
    planner::select::select(cat, source, k, target, schema)
}

// UpgradePlan::new (refusals 7 and 8 too, and 11 where the room is short of a slot).
pub fn plan(
    cat: &[u8],
    source: &[u8],
    k: usize,
    target: &[u8],
    to: usize,
    header: usize,
    body: &[u8],
    marks: &[u8],
    room: &mut [u8],
) -> Result<(), Failure>
    ensures answer { result ≡ planned_of cat.now source.now k target.now to header body.now marks.now (length room.old) }
    ensures room { room.new ≡ after_plan cat.now source.now k target.now to header body.now marks.now room.old }
{
    planner::plan(cat, source, k, target, to, header, body, marks, room)
}
