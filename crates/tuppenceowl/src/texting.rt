// Plan text, and the check of a plan. A plan is handed over in a slot of lent bytes.
ghost use Rattle.std.specs.Prelude.{◌≡◌};
ghost use Rattle.plan_text.specs.Writing.{written_of, after_writing};
ghost use Rattle.plan_read.specs.Reading.{Reads};
ghost use Rattle.tuppenceowl.specs.Texting.{checked_of};

use limits::refusal::Refusal;
use plan_read::reader;
use plan_text::writer;

// Does the plan keep every rule (refusal 16)?
pub fn check_plan(plan: &[u8]) -> Result<(), Refusal>
    ensures { result ≡ checked_of plan.now }
{
    if slot::check::is_ok(plan) {
        return Ok(());
    }
    Err(Refusal::BadPlan)
}

// The plan's text, stored at the start of what is lent for it.
pub fn write_plan(plan: &[u8], text: &mut [u8]) -> Result<usize, Refusal>
    ensures { (result ≡ written_of plan.now text.old) × (text.new ≡ after_writing plan.now text.old) }
{
    writer::write_plan(plan, text)
}

// The plan that has this text, stored at the start of what is lent for it.
pub fn read_plan(text: &[u8], plan: &mut [u8]) -> Result<(), Refusal>
    ensures { Reads text.now plan.old result plan.new }
{
    reader::read_plan(text, plan)
}
