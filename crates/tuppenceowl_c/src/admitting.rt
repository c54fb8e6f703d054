// The catalogue, admission, a record's size, and windows.
ghost use Rattle.std.specs.Prelude.{◌≡◌};
ghost use Rattle.admission_rules.specs.Admission.{admit_catalogue, admit_of, status_of};
ghost use Rattle.tuppenceowl.specs.Answers.{sized_of, windowed_of};
ghost use Rattle.tuppenceowl_c.specs.Status.{failure_status};
ghost use Rattle.tuppenceowl_c.specs.Admitting.{sized_status, bytes_or, windowed_status, start_or, end_or};

use crate::NONE;
use limits::refusal;
use limits::refusal::{Failure, Refusal};

pub fn status(answer: Result<(), Refusal>) -> u8
    ensures { result ≡ status_of answer }
{
    match answer {
        Ok(()) => 0,
        Err(why) => refusal::number(why),
    }
}

// Why a call on records has no answer.
pub fn failure(why: Failure) -> u8
    ensures { result ≡ failure_status why }
{
    match why {
        Failure::NoRecord => NONE,
        Failure::Refused(refused) => refusal::number(refused),
    }
}

#[unsafe(no_mangle)]
pub extern "C" fn owl_check_catalogue(cat: &[u8]) -> u8
    ensures { result ≡ status_of (admit_catalogue cat.now) }
{
    status(tuppenceowl::check_catalogue(cat))
}

#[unsafe(no_mangle)]
pub extern "C" fn owl_admit(cat: &[u8], layout: &[u8]) -> u8
    ensures { result ≡ status_of (admit_of cat.now layout.now) }
{
    status(tuppenceowl::admit(cat, layout))
}

#[unsafe(no_mangle)]
pub extern "C" fn owl_record_size(cat: &[u8], layout: &[u8], k: usize, size: &mut usize) -> u8
    ensures status { result ≡ sized_status (sized_of cat.now layout.now k) }
    ensures size { size.new ≡ bytes_or (sized_of cat.now layout.now k) size.old }
{
    match tuppenceowl::record_size(cat, layout, k) {
        Ok(n) => {
            *size = n;
            0
        }
        Err(why) => failure(why),
    }
}

#[unsafe(no_mangle)]
pub extern "C" fn owl_window(
    bytes: &[u8],
    offset: usize,
    size: usize,
    start: &mut usize,
    end: &mut usize,
) -> u8
    ensures status { result ≡ windowed_status (windowed_of bytes.now offset size) }
    ensures start { start.new ≡ start_or (windowed_of bytes.now offset size) start.old }
    ensures end { end.new ≡ end_or (windowed_of bytes.now offset size) end.old }
{
    match tuppenceowl::window(bytes, offset, size) {
        Some((from, to)) => {
            *start = from;
            *end = to;
            0
        }
        None => NONE,
    }
}
