// The plan that the dispatch uses: the first of the rtype.
ghost use Rattle.std.specs.Prelude.{◌≡◌};
ghost use Rattle.dispatch.specs.Dispatch.{first_plan, listed};

// Where its slot begins. A rest behind the whole slots is no plan.
pub fn first_plan(plans: &[u8], rtype: u16) -> Option<usize>
    ensures { result ≡ first_plan plans.now rtype }
{
    for k in 0..plans.len() / slot::SIZE {
        let at = slot::SIZE * k;
        if lent::u16_in(plans, at) == rtype {
            return Some(at);
        }
    }
    None
}

// Is the rtype one of those that are listed unplanned?
pub fn is_listed(unplanned: &[u16], rtype: u16) -> bool
    ensures { result ≡ listed unplanned.now rtype }
{
    unplanned.contains(&rtype)
}
