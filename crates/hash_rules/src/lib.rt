// The walk that a record's hash takes: its rules, laws about them, and all of a field's visit that enters nothing.
#![tactic(auto)]

ghost use Rattle.std.specs.Prelude.{◌≡◌};
ghost use Rattle.lent.specs.Bytes.{bytes_of};
ghost use Rattle.crc64.specs.Sum.{bytes_step};
ghost use Rattle.hash_rules.specs.Walk.{names_struct};
ghost use Rattle.hash_rules.specs.Parts.{visit_of, Near};

use crc64::digitwise;
use field::FieldDef;
use layout::block;
use layout::block::Head;
use limits::refusal::Refusal;

// Where a walk stands: the sum, and how many fields were visited.
#[derive(Clone, Copy, Debug, PartialEq, Eq)]
pub struct Walked {
    pub fp: u64,
    pub visits: usize,
}

// What a field asks for: the walk goes on, or enters the struct at a head.
#[derive(Clone, Copy, Debug, PartialEq, Eq)]
pub enum Visit {
    On(Walked),
    Enter(Walked, Head),
}

fn names_struct(cat: &[u8], l: &[u8], f: FieldDef) -> bool
    ensures { result ≡ names_struct cat.now l.now f }
{
    field::is_struct(cat, f) & block::has_struct(l, f)
}

// A struct's size, which goes in before its fields: two bytes.
fn size_sum(start: u64, size: usize) -> u64
    ensures { result ≡ bytes_step start (bytes_of 2 size) }
{
    digitwise::step_number(start, (size % 65536) as u64, 2)
}

// What a walk reads, and how many fields it may visit.
#[derive(Clone, Copy)]
pub struct Walk<'a> {
    pub cat: &'a [u8],
    pub layout: &'a [u8],
    pub budget: usize,
}

impl<'a> Walk<'a> {
    // All of a field's walk that does not enter anything.
    pub fn visited(&self, f: FieldDef, so_far: Walked) -> Result<Visit, Refusal>
        ensures visit { result ≡ visit_of self.now.cat.now self.now.layout.now self.now.budget f so_far.fp so_far.visits }
        ensures near { Near result }
    {
        if self.budget <= so_far.visits {
            return Err(Refusal::OverBudget);
        }
        let fp = feed::field_sum(so_far.fp, f);
        let visits = so_far.visits + 1;
        if !names_struct(self.cat, self.layout, f) {
            return Ok(Visit::On(Walked { fp, visits }));
        }
        let head = block::struct_head(self.layout, f.def_index);
        let fp = size_sum(fp, block::struct_size(self.layout, head));
        Ok(Visit::Enter(Walked { fp, visits }, head))
    }
}
