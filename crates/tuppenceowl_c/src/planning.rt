// The selection and the planner: 254 is unplanned.
ghost use Rattle.std.specs.Prelude.{◌≡◌, length};
ghost use Rattle.planner.specs.Planner.{planned_of, after_plan};
ghost use Rattle.planner.specs.Select.{selected_of};
ghost use Rattle.tuppenceowl_c.specs.Planning.{planned_status, selected_status, record_or, schema_of};

use crate::{OTHER, admitting};
use limits::refusal::Failure;
use tuppenceowl::planning;

fn tell_selected(answer: Result<Option<usize>, Failure>, number: &mut usize) -> u8
    ensures status { result ≡ selected_status answer }
    ensures number { number.new ≡ record_or answer number.old }
{
    match answer {
        Ok(Some(k)) => {
            *number = k;
            0
        }
        Ok(None) => OTHER,
        Err(why) => admitting::failure(why),
    }
}

fn planned_status(answer: Result<(), Failure>) -> u8
    ensures { result ≡ planned_status answer }
{
    match answer {
        Ok(()) => 0,
        Err(why) => admitting::failure(why),
    }
}

#[unsafe(no_mangle)]
pub extern "C" fn owl_select(
    cat: &[u8],
    source: &[u8],
    k: usize,
    target: &[u8],
    wanted: bool,
    schema: u16,
    number: &mut usize,
) -> u8
    ensures status { result ≡ selected_status (selected_of cat.now source.now k target.now (schema_of wanted schema)) }
    ensures number { number.new ≡ record_or (selected_of cat.now source.now k target.now (schema_of wanted schema)) number.old }
{
    // C has no Option: a flag with a number beside it.
    let schema = if wanted { Some(schema) } else { None };
    tell_selected(planning::select(cat, source, k, target, schema), number)
}

#[unsafe(no_mangle)]
pub extern "C" fn owl_plan(
    cat: &[u8],
    source: &[u8],
    k: usize,
    target: &[u8],
    to: usize,
    header: usize,
    body: &[u8],
    marks: &[u8],
    room: &mut [u8],
) -> u8
    ensures status { result ≡ planned_status (planned_of cat.now source.now k target.now to header body.now marks.now (length room.old)) }
    ensures room { room.new ≡ after_plan cat.now source.now k target.now to header body.now marks.now room.old }
{
    planned_status(planning::plan(cat, source, k, target, to, header, body, marks, room))
}
