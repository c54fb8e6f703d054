// The sum, the layout hash and the boot check.
ghost use Rattle.std.specs.Prelude.{◌≡◌};
ghost use Rattle.limits.specs.Limits.{default_budget};
ghost use Rattle.crc64.specs.Avro.{fingerprint};
ghost use Rattle.tuppenceowl.specs.Answers.{summed_of, booted_of};
ghost use Rattle.tuppenceowl_c.specs.Hashing.{summed_status, hash_or, visits_or, booted_status};

use crate::{OTHER, admitting};
use limits::refusal::Failure;
use tuppenceowl::hashing;
use tuppenceowl::hashing::Walked;

#[unsafe(no_mangle)]
pub extern "C" fn owl_sum(bytes: &[u8]) -> u64
    ensures { result ≡ fingerprint bytes.now }
{
    hashing::sum(bytes)
}

fn tell(answer: Result<Walked, Failure>, hash: &mut u64, visits: &mut usize) -> u8
    ensures status { result ≡ summed_status answer }
    ensures hash { hash.new ≡ hash_or answer hash.old }
    ensures visits { visits.new ≡ visits_or answer visits.old }
{
    match answer {
        Ok(walked) => {
            *hash = walked.fp;
            *visits = walked.visits;
            0
        }
        Err(why) => admitting::failure(why),
    }
}

#[unsafe(no_mangle)]
pub extern "C" fn owl_layout_hash(
    cat: &[u8],
    layout: &[u8],
    k: usize,
    hash: &mut u64,
    visits: &mut usize,
) -> u8
    ensures status { result ≡ summed_status (summed_of cat.now layout.now k default_budget) }
    ensures hash { hash.new ≡ hash_or (summed_of cat.now layout.now k default_budget) hash.old }
    ensures visits { visits.new ≡ visits_or (summed_of cat.now layout.now k default_budget) visits.old }
{
    tell(hashing::layout_hash(cat, layout, k), hash, visits)
}

#[unsafe(no_mangle)]
pub extern "C" fn owl_layout_hash_within(
    cat: &[u8],
    layout: &[u8],
    k: usize,
    budget: usize,
    hash: &mut u64,
    visits: &mut usize,
) -> u8
    ensures status { result ≡ summed_status (summed_of cat.now layout.now k budget) }
    ensures hash { hash.new ≡ hash_or (summed_of cat.now layout.now k budget) hash.old }
    ensures visits { visits.new ≡ visits_or (summed_of cat.now layout.now k budget) visits.old }
{
    tell(
        hashing::layout_hash_within(cat, layout, k, budget),
        hash,
        visits,
    )
}

// 0 where the record stores the hash of its tables.
#[unsafe(no_mangle)]
pub extern "C" fn owl_boot_check(cat: &[u8], layout: &[u8], k: usize) -> u8
    ensures { result ≡ booted_status (booted_of cat.now layout.now k) }
{
    match hashing::boot_check(cat, layout, k) {
        Ok(true) => 0,
        Ok(false) => OTHER,
        Err(why) => admitting::failure(why),
    }
}
