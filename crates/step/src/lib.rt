// Op of dbn's upgrade.rs, kept inside a Step: a copy, or an integer mapped from one width to another. The numbers stand one by
// one in the variants, as in `copy` and `int` of specs/, from which each rule of a plan builds its steps.
#![tactic(auto)]

pub mod packed;

ghost use Rattle.std.specs.Prelude.{◌≡◌, ◌+◌, ◌<◌};
ghost use Rattle.catalogue.specs.Catalogue.{is_width};
ghost use Rattle.step.specs.Step.{source_of, takes, target_of, end_of, widths_ok, step_ok, within};

#[derive(Clone, Copy, Debug, PartialEq, Eq)]
pub enum Op {
    Copy {
        src_offset: u16,
        dst_offset: u16,
        size: u16,
    },
    Int {
        src_offset: u16,
        dst_offset: u16,
        src_size: u16,
        dst_size: u16,
        signed: bool,
        has_undef_max: bool,
    },
}

#[derive(Clone, Copy, Debug, PartialEq, Eq)]
pub struct Step {
    pub op: Op,
}

// Fixed memory: an array of Steps with a count, as `plan_of` of `slot` reads them; what stands past the count is no step.
#[derive(Drop)]
pub struct Steps {
    pub count: usize,
    pub steps: [Step; limits::MAX_STEPS],
}

impl Step {
    // Where it writes, and where it ends there.
    pub fn target(self) -> usize
        ensures { (result ≡ target_of self) × (result < 65536) }
    {
        match self.op {
            Op::Copy { dst_offset, .. } | Op::Int { dst_offset, .. } => lent::wide16(dst_offset),
        }
    }

    pub fn end(self) -> usize
        ensures { (result ≡ end_of self) × (result < 131072) }
    {
        match self.op {
            Op::Copy {
                dst_offset,
                size,
                ..
            } => lent::wide16(dst_offset) + lent::wide16(size),
            Op::Int {
                dst_offset,
                dst_size,
                ..
            } => lent::wide16(dst_offset) + lent::wide16(dst_size),
        }
    }

    // Where it ends in the source.
    pub fn source_end(self) -> usize
        ensures { (result ≡ source_of self + takes self) × (result < 131072) }
    {
        match self.op {
            Op::Copy {
                src_offset,
                size,
                ..
            } => lent::wide16(src_offset) + lent::wide16(size),
            Op::Int {
                src_offset,
                src_size,
                ..
            } => lent::wide16(src_offset) + lent::wide16(src_size),
        }
    }

    // The rules that concern a step alone.
    pub fn is_ok(self) -> bool
        ensures { result ≡ step_ok self }
    {
        match self.op {
            Op::Copy {
                src_offset,
                size,
                ..
            } => (size != 0) & (lent::wide16(src_offset) + lent::wide16(size) <= limits::MAX_BYTES),
            Op::Int {
                src_offset,
                src_size,
                dst_size,
                has_undef_max,
                ..
            } => {
                widths_ok(src_size, dst_size, has_undef_max)
                    & (lent::wide16(src_offset) + lent::wide16(src_size) <= limits::MAX_BYTES)
            }
        }
    }

    // Does it start at `low` or later and end at `high` or before?
    pub fn is_within(self, low: usize, high: usize) -> bool
        ensures { result ≡ within low high self }
    {
        (low <= self.target()) & (self.end() <= high)
    }
}

// By branches, and so is `widths_ok`: rows of comparisons become slower vector code.
fn is_width(n: u16) -> bool
    ensures { result ≡ is_width n }
{
    if n == 1 {
        return true;
    }
    if n == 2 {
        return true;
    }
    if n == 4 {
        return true;
    }
    n == 8
}

fn widths_ok(from: u16, to: u16, marked: bool) -> bool
    ensures { result ≡ widths_ok from to marked }
{
    if !is_width(from) {
        return false;
    }
    if !is_width(to) {
        return false;
    }
    (from != to) & (marked | (from < to))
}
