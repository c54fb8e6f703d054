// The verdict: 0 is compiled, 254 dynamic.
ghost use Rattle.std.specs.Prelude.{◌≡◌};
ghost use Rattle.tuppenceowl.specs.Comparing.{judged_of, judged_rtype};
ghost use Rattle.tuppenceowl_c.specs.Comparing.{judged_status};

use crate::{OTHER, admitting};
use compare::answer::Verdict;
use limits::refusal::Failure;
use tuppenceowl::comparing;

fn status(judged: Result<Verdict, Failure>) -> u8
    ensures { result ≡ judged_status judged }
{
    match judged {
        Ok(Verdict::Compiled) => 0,
        Ok(Verdict::Dynamic) => OTHER,
        Err(why) => admitting::failure(why),
    }
}

#[unsafe(no_mangle)]
pub extern "C" fn owl_verdict(cat: &[u8], stream: &[u8], k: usize, compiled: &[u8]) -> u8
    ensures { result ≡ judged_status (judged_of cat.now stream.now k compiled.now) }
{
    status(comparing::verdict(cat, stream, k, compiled))
}

#[unsafe(no_mangle)]
pub extern "C" fn owl_verdict_of(cat: &[u8], stream: &[u8], rtype: u16, compiled: &[u8]) -> u8
    ensures { result ≡ judged_status (judged_rtype cat.now stream.now rtype compiled.now) }
{
    status(comparing::verdict_of(cat, stream, rtype, compiled))
}
