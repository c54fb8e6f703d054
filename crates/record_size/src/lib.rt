// record_size of dbn's layout.rs.
#![tactic(auto)]

ghost use Rattle.std.specs.Prelude.{◌≡◌};
ghost use Rattle.field.specs.Field.{fields_of};
ghost use Rattle.layout.specs.Layout.{record_at};
ghost use Rattle.record_size.specs.Size.{last_end, record_size};

use field::Holder;
use field::rows::rows_of;
use layout::block;
use layout::block::Head;

fn last_end(t: &[u8]) -> usize
    ensures { result ≡ last_end (fields_of t.now) }
{
    let mut end: usize = 0;
    for f in rows_of(t) {
        end = lent::greater(end, field::end_of(f));
    }
    end
}

// Of the record whose head is h.
pub fn record_size(l: &[u8], h: Head) -> usize
    ensures { result ≡ record_size (record_at l.now h) }
{
    lent::greater(
        block::record_base(l, h),
        last_end(block::table_at(Holder::Record, l, h)),
    )
}
