// dbn's compare.rs: may a stream's record be read as the compiled one?
#![tactic(auto)]

pub mod answer;

ghost use Rattle.std.specs.Prelude.{◌≡◌, ◌+◌, ◌≤◌, eqb, length};
ghost use Rattle.field.specs.Field.{field_at};
ghost use Rattle.layout.specs.Layout.{record_at, FewFields};
ghost use Rattle.compare.specs.Compare.{base_compatible, verdict_of};
ghost use Rattle.compare.specs.Parts.{Skips};

use crate::answer::Verdict;
use field::Holder;
use layout::block::Head;
use layout::{block, find};

fn is_id(t: &[u8], at: usize, id: u16) -> bool
    requires { at + 2 ≤ length t.now }
    ensures { result ≡ eqb (field_at t.now at).field_id id }
{
    lent::u16_in(t, at) == id
}

// How many fields of other ids stand in front, but for the last few: four in a turn. Counted by hand: over a range of turns
// the four tests take longer, and the verdict misses its bar.
fn skipped(t: &[u8], id: u16) -> usize
    ensures { Skips t.now id result }
{
    let n = t.len() / field::SIZE;
    let mut k = 0;
    while k + 4 <= n {
        let at = field::SIZE * k;
        if is_id(t, at, id) {
            return k;
        }
        if is_id(t, at + 16, id) {
            return k + 1;
        }
        if is_id(t, at + 32, id) {
            return k + 2;
        }
        if is_id(t, at + 48, id) {
            return k + 3;
        }
        k += 4;
    }
    k
}

// Left by label from the inner scan as soon as a field has its equal. Both scans count by hand too: over iterators the verdict of
// few fields misses its bar.
fn is_base_compatible(cat: &[u8], s: &[u8], h: Head, c: &[u8], g: Head) -> bool
    requires { FewFields s.now × FewFields c.now }
    ensures { result ≡ base_compatible cat.now s.now (record_at s.now h) c.now (record_at c.now g) }
{
    if block::record_base(s, h) < block::record_base(c, g) {
        return false;
    }
    let haves = block::table_at(Holder::Record, s, h);
    let wants = block::table_at(Holder::Record, c, g);
    let mut at = 0;
    let mut left = wants.len() / field::SIZE;
    'next: while left != 0 {
        let here = at;
        let want = field::field_in(wants, here);
        at += field::SIZE;
        left -= 1;
        if field::is_padding(cat, want) {
            continue 'next;
        }
        let front = skipped(haves, want.field_id);
        let mut from = field::SIZE * front;
        let mut rest = haves.len() / field::SIZE - front;
        while rest != 0 {
            if equal::row_eq(cat, s, haves, from, c, wants, here) {
                continue 'next;
            }
            from += field::SIZE;
            rest -= 1;
        }
        return false;
    }
    true
}

// Of the stream's record whose head is h.
pub fn verdict(cat: &[u8], s: &[u8], h: Head, c: &[u8]) -> Verdict
    requires { FewFields s.now × FewFields c.now }
    ensures { result ≡ verdict_of cat.now s.now h c.now }
{
    let Some(g) = find::first_of(c, block::record_rtype(s, h)) else {
        return Verdict::Dynamic;
    };
    if block::record_hash(s, h) == block::record_hash(c, g) {
        return Verdict::Compiled;
    }
    if is_base_compatible(cat, s, h, c, g) {
        return Verdict::Compiled;
    }
    Verdict::Dynamic
}
