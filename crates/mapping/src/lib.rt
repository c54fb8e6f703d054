// The integer mapping of dbn's UpgradePlan::apply, by the number of bytes, in 64 bits.
#![tactic(auto)]

pub mod width;

ghost use Rattle.std.specs.Prelude.{◌≡◌, ◌^◌, ◌<◌, ◌≤◌};
ghost use Rattle.mapping.specs.Mapping.{half, span, map_int};

// Half of the numbers that n bytes hold.
fn half_of(n: u64) -> u64
    requires { (1 ≤ n) × (n ≤ 8) }
    ensures { (result ≡ half n) × (1 ≤ result) × (result ≤ 2 ^ 63) }
{
    1u64 << (8 * n - 1)
}

// The number whose `to` bytes hold what becomes of the integer that `from` bytes hold, whose number is v.
pub fn map_int(from: u64, to: u64, signed: bool, marked: bool, v: u64) -> u64
    requires { ((1 ≤ from) × (from ≤ 8)) × ((1 ≤ to) × (to ≤ 8)) × (v < span from) }
    ensures { result ≡ map_int from to signed marked v }
{
    let a = half_of(from);
    let b = half_of(to);
    if signed {
        if a <= v {
            // below zero: v - a more than the least
            let k = v - a;
            if k + b < a {
                return b - 1;
            }
            return k + b - a + b;
        }
        if marked && v == a - 1 {
            return b - 1;
        }
        if b <= v {
            return b - 1;
        }
        return v;
    }
    if marked && v == a - 1 + a {
        return b - 1 + b;
    }
    if b - 1 + b < v {
        return b - 1 + b;
    }
    v
}
