// record_layout of dbn's layout.rs: the first record of an rtype; and the last.
ghost use Rattle.std.specs.Prelude.{◌≡◌, cond, ◌<◌, Some};
ghost use Rattle.layout.specs.Find.{is_of, first_of, last_of, Near};

use crate::block;
use crate::block::Head;
use field::Holder;

pub fn is_of(l: &[u8], rtype: u16, h: Head) -> bool
    ensures { result ≡ is_of l.now rtype h }
{
    block::record_rtype(l, h) == rtype
}

// Where its head stands.
pub fn first_of(l: &[u8], rtype: u16) -> Option<Head>
    ensures place { result ≡ first_of l.now rtype }
    ensures near { Near result }
{
    for h in block::heads_of(Holder::Record, l) {
        if is_of(l, rtype, h) {
            return Some(h);
        }
    }
    None
}

pub fn last_of(l: &[u8], rtype: u16) -> Option<Head>
    ensures place { result ≡ last_of l.now rtype }
    ensures near { Near result }
{
    let mut found = None;
    for h in block::heads_of(Holder::Record, l) {
        if is_of(l, rtype, h) {
            found = Some(h);
        }
    }
    found
}
