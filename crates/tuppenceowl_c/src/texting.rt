// Plan text, and the check of a plan.
ghost use Rattle.std.specs.Prelude.{◌≡◌};
ghost use Rattle.admission_rules.specs.Admission.{status_of};
ghost use Rattle.plan_text.specs.Writing.{written_of, after_writing};
ghost use Rattle.tuppenceowl.specs.Texting.{checked_of};
ghost use Rattle.tuppenceowl_c.specs.Texting.{written_status, length_or, ReadsAs};

use crate::admitting;
use limits::refusal;
use tuppenceowl::texting;

#[unsafe(no_mangle)]
pub extern "C" fn owl_check_plan(plan: &[u8]) -> u8
    ensures { result ≡ status_of (checked_of plan.now) }
{
    admitting::status(texting::check_plan(plan))
}

// The text's length goes where the host says.
#[unsafe(no_mangle)]
pub extern "C" fn owl_write_plan(plan: &[u8], text: &mut [u8], length: &mut usize) -> u8
    ensures status { result ≡ written_status (written_of plan.now text.old) }
    ensures text { text.new ≡ after_writing plan.now text.old }
    ensures length { length.new ≡ length_or (written_of plan.now text.old) length.old }
{
    match texting::write_plan(plan, text) {
        Ok(n) => {
            *length = n;
            0
        }
        Err(why) => refusal::number(why),
    }
}

#[unsafe(no_mangle)]
pub extern "C" fn owl_read_plan(text: &[u8], plan: &mut [u8]) -> u8
    ensures { ReadsAs text.now plan.old result plan.new }
{
    match texting::read_plan(text, plan) {
        Ok(()) => 0,
        Err(why) => refusal::number(why),
    }
}
