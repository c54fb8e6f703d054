// layout_hash of dbn's hash.rs, with levels and a budget of visits: fields in offset order at every level.
#![tactic(auto)]

ghost use Rattle.std.specs.Prelude.{◌≡◌, ◌*◌, ◌<◌, ◌≤◌, length};
ghost use Rattle.limits.specs.Limits.{max_fields};
ghost use Rattle.crc64.specs.Sum.{bytes_step};
ghost use Rattle.field.specs.Field.{fields_of};
ghost use Rattle.hash_rules.specs.Walk.{walk_field, walk_table};
ghost use Rattle.hash_rules.specs.Hash.{hash_of};
ghost use Rattle.hash_rules.specs.Parts.{told};
ghost use Rattle.layout.specs.Layout.{FewFields};

use crc64::Crc64;
use field::{FieldDef, Holder};
use hash_rules::{Visit, Walk, Walked};
use layout::block;
use limits::refusal::Refusal;

// A field is hashed by hashing its struct: so many levels may be entered.
#[cycle(hash_field_hash_table)]
fn hash_field(walk: &Walk, levels: usize, f: FieldDef, so_far: Walked) -> Result<Walked, Refusal>
    requires { FewFields walk.now.layout.now }
    ensures { result ≡ told (walk_field bytes_step walk.now.cat.now walk.now.layout.now walk.now.budget (walk_table bytes_step walk.now.cat.now walk.now.layout.now walk.now.budget levels) f so_far.fp so_far.visits) }
{
    match walk.visited(f, so_far)? {
        Visit::On(walked) => Ok(walked),
        Visit::Enter(walked, head) => {
            let table = block::table_at(Holder::Struct, walk.layout, head);
            hash_table(walk, levels, table, walked)
        }
    }
}

// And a table by hashing its fields, in offset order.
#[cycle(hash_field_hash_table)]
fn hash_table(walk: &Walk, levels: usize, table: &[u8], start: Walked) -> Result<Walked, Refusal>
    requires { FewFields walk.now.layout.now × (length table.now ≤ 16 * max_fields) }
    ensures { result ≡ told (walk_table bytes_step walk.now.cat.now walk.now.layout.now walk.now.budget levels (fields_of table.now) start.fp start.visits) }
{
    if levels == 0 {
        return Err(Refusal::TooDeep);
    }
    let n = table.len() / field::SIZE;
    let mut order = [0u16; limits::MAX_FIELDS];
    field::order::by_offset(table, n, &mut order);
    let mut walked = start;
    for place in &order[..n] {
        let f = field::field_in(table, lent::wide16(*place));
        walked = hash_field(walk, levels - 1, f, walked)?;
    }
    Ok(walked)
}

// The hash of a record's table, with a budget of visits.
pub fn hash_record(cat: &[u8], l: &[u8], budget: usize, table: &[u8]) -> Result<Walked, Refusal>
    requires { FewFields l.now × (length table.now ≤ 16 * max_fields) }
    ensures { result ≡ hash_of cat.now l.now budget (fields_of table.now) }
{
    let walk = Walk {
        cat,
        layout: l,
        budget,
    };
    let start = Walked {
        fp: Crc64::EMPTY,
        visits: 0,
    };
    hash_table(&walk, limits::MAX_LEVEL, table, start)
}
