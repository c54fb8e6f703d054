// A step in 16 bytes of a lent plan.
ghost use Rattle.std.specs.Prelude.{◌≡◌, ◌+◌, ◌≤◌, length};
ghost use Rattle.step.specs.Packed.{packed_as, packed_of, op_at, step_at, steps_of, flags_ok};

use crate::{Op, Step};

// Bytes of a packed step.
pub const SIZE: usize = 16;

pub type Packed = [u8; 16];

fn packed_as(kind: u8, sign: u8, mark: u8, source: u16, target: u16, from: u16, to: u16) -> Packed
    ensures { result ≡ packed_as kind sign mark source target from to }
{
    [
        kind,
        sign,
        mark,
        0,
        lent::store::low(source),
        lent::store::high(source),
        lent::store::low(target),
        lent::store::high(target),
        lent::store::low(from),
        lent::store::high(from),
        lent::store::low(to),
        lent::store::high(to),
        0,
        0,
        0,
        0,
    ]
}

impl Step {
    pub fn packed(self) -> Packed
        ensures { result ≡ packed_of self }
    {
        match self.op {
            Op::Copy {
                src_offset,
                dst_offset,
                size,
            } => packed_as(0, 0, 0, src_offset, dst_offset, size, 0),
            Op::Int {
                src_offset,
                dst_offset,
                src_size,
                dst_size,
                signed,
                has_undef_max,
            } => packed_as(
                1,
                lent::one(signed),
                lent::one(has_undef_max),
                src_offset,
                dst_offset,
                src_size,
                dst_size,
            ),
        }
    }
}

fn op_in(p: &[u8], at: usize) -> Op
    requires { at + 16 ≤ length p.now }
    ensures { result ≡ op_at p.now at }
{
    let source = lent::u16_in(p, at + 4);
    let target = lent::u16_in(p, at + 6);
    let size = lent::u16_in(p, at + 8);
    if p[at] == 0 {
        return Op::Copy {
            src_offset: source,
            dst_offset: target,
            size,
        };
    }
    Op::Int {
        src_offset: source,
        dst_offset: target,
        src_size: size,
        dst_size: lent::u16_in(p, at + 10),
        signed: p[at + 1] == 1,
        has_undef_max: p[at + 2] == 1,
    }
}

pub fn step_in(p: &[u8], at: usize) -> Step
    requires { at + 16 ≤ length p.now }
    ensures { result ≡ step_at p.now at }
{
    Step { op: op_in(p, at) }
}

pub fn flags_ok(p: &[u8], at: usize) -> bool
    requires { at + 16 ≤ length p.now }
    ensures { result ≡ flags_ok p.now at }
{
    (p[at] <= 1) & ((p[at + 1] <= 1) & (p[at + 2] <= 1))
}

// The steps that stand packed in lent bytes, one after the other.
#[derive(Drop)]
pub struct Unpacked<'a> {
    pub rest: &'a [u8],
}

impl<'a> Iterator for Unpacked<'a> {
    ghost use Rattle.std.specs.Iterator.{YieldsFirst, item_count};

    type Item = Step;

    ghost next_gives = { YieldsFirst (λ steps. steps_of steps.rest.now) };

    ghost remaining = { item_count (λ steps. steps_of steps.rest.now) };

    fn next(&mut self) -> Option<Step> {
        if self.rest.len() < SIZE {
            return None;
        }
        let step = step_in(self.rest, 0);
        self.rest = &self.rest[SIZE..];
        Some(step)
    }
}

// Bytes behind the last whole step are none of them.
pub fn steps_in(p: &[u8]) -> Unpacked<'_>
    ensures { steps_of result.rest.now ≡ steps_of p.now }
{
    Unpacked { rest: p }
}
