// coalesce of dbn's upgrade.rs: two neighbours become one copy where both end inside both bases.
#![tactic(auto)]

ghost use Rattle.std.specs.Prelude.{◌≡◌, cond, false, ◌+◌, ◌<◌, Some, None, IfSome, IsNone};
ghost use Rattle.step.specs.Step.{copy};
ghost use Rattle.coalesce.specs.Joins.{is_copy, in_bases, adjacent, joins, joined};

use step::{Op, Step};

// Where the source's base ends, and the target's.
#[derive(Clone, Copy, Debug, PartialEq, Eq)]
pub struct Bases {
    pub source: usize,
    pub target: usize,
}

// A copy's numbers.
#[derive(Clone, Copy)]
struct Run {
    source: u16,
    target: u16,
    size: u16,
}

fn inside(run: Run, bases: Bases) -> bool
    ensures { result ≡ in_bases bases.source bases.target (copy run.source run.target run.size) }
{
    let size = usize::from(run.size);
    (usize::from(run.source) + size <= bases.source)
        & (usize::from(run.target) + size <= bases.target)
}

fn adjacent(a: Run, b: Run) -> bool
    ensures { result ≡ adjacent (copy a.source a.target a.size) (copy b.source b.target b.size) }
{
    let size = usize::from(a.size);
    (usize::from(a.source) + size == usize::from(b.source))
        & (usize::from(a.target) + size == usize::from(b.target))
}

// A copy's numbers; an integer step has none.
fn run_of(step: Step) -> Option<Run>
    ensures copied { IfSome result (λ run. step ≡ copy run.source run.target run.size) }
    ensures integer { IsNone result → is_copy step.op ≡ false }
{
    match step.op {
        Op::Copy {
            src_offset: source,
            dst_offset: target,
            size,
        } => Some(Run {
            source,
            target,
            size,
        }),
        Op::Int { .. } => None,
    }
}

fn join_runs(a: Run, b: Run, bases: Bases) -> Option<Step>
    requires { bases.source < 65536 }
    ensures { result ≡ cond (joins bases.source bases.target (copy a.source a.target a.size) (copy b.source b.target b.size)) (Some (copy a.source a.target (a.size + b.size))) None }
{
    if (inside(a, bases) & inside(b, bases)) & adjacent(a, b) {
        return Some(Step {
            op: Op::Copy {
                src_offset: a.source,
                dst_offset: a.target,
                size: a.size + b.size,
            },
        });
    }
    None
}

// None: they stay two.
pub fn join(a: Step, b: Step, bases: Bases) -> Option<Step>
    requires { bases.source < 65536 }
    ensures { result ≡ cond (joins bases.source bases.target a b) (Some (joined a b)) None }
{
    join_runs(run_of(a)?, run_of(b)?, bases)
}
