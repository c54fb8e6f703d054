// A field is pushed, a gap is filled, a field is placed: what every call goes through.
ghost use Rattle.std.specs.Prelude.{◌≡◌, ◌&&◌, leb, ◌+◌, ◌*◌, ◌/◌, ◌≤◌, ◌<◌, length};
ghost use Rattle.limits.specs.Limits.{max_bytes, max_fields, max_name};
ghost use Rattle.cursor_rules.specs.Cursor.{align_up, padding_field, push, pad_to, gaps, room, fits, move_to, size_ok, laid, lay, place};
ghost use Rattle.builders.specs.Builder.{building_of, outcome_of, state_or, SameLent};

use crate::bytes;
use cursor_rules::FieldCursor;
use field::FieldDef;
use lent::store;
use limits::refusal::Refusal;

pub fn align_up(at: usize, align: usize) -> usize
    requires { (at ≤ max_bytes) × (align < 16) }
    ensures { (result ≡ align_up at align) × (result < max_bytes + 16) × (at ≤ result) }
{
    let step = align.max(1);
    (at + (step - 1)) / step * step
}

// ---- room

fn gaps(c: FieldCursor, to: usize) -> usize
    ensures { (result ≡ gaps c to) × (result ≤ 1) }
{
    if c.cursor < to { 1 } else { 0 }
}

// ---- a gap, and a field

fn padding_field(cat: &[u8], from: usize, size: usize) -> FieldDef
    requires { (from < 65536) × (size < 65536) }
    ensures { result ≡ padding_field cat.now from size }
{
    FieldDef {
        field_id: catalogue::padding_id(cat),
        offset: from as u16,
        size: size as u16,
        type_id: catalogue::id_of(cat, catalogue::PADDING),
        flags: 0,
        def_index: 0,
        scale: 0,
        reserved: 0,
    }
}

fn size_ok(cat: &[u8], f: FieldDef) -> bool
    ensures { result ≡ size_ok cat.now f }
{
    let width = catalogue::width_of(cat, f.type_id) as u16;
    (f.size != 0) & (field::is_array(cat, f) | ((width == 0) | (f.size == width)))
}

// The field where it comes to lie.
fn laid_field(cat: &[u8], c: FieldCursor, align: usize, f: FieldDef) -> FieldDef
    requires { (c.cursor ≤ max_bytes) × (align < 16) }
    ensures { result ≡ laid cat.now c align f }
{
    FieldDef {
        offset: align_up(c.cursor, align) as u16,
        flags: cursor_rules::flags_after(cat, c, f),
        reserved: 0,
        ..f
    }
}

// ---- what is lent, and where it stands

// A cursor, with the table and the names that it fills. Each call answers where it stands then; after a refusal it stands where it did.
#[derive(Drop)]
pub struct Builder<'a> {
    pub table: &'a mut [u8],
    pub names: &'a mut [u8],
    pub state: FieldCursor,
}

impl Builder<'_> {
    // One field more.
    fn push(&mut self, f: FieldDef, name: &[u8])
        requires { (self.old.state.count < max_fields) × (16 * self.old.state.count + 16 ≤ length self.old.table.now) × (33 * self.old.state.count + 33 ≤ length self.old.names.now) × (length name.now ≤ max_name) }
        ensures made { building_of self.new ≡ push f name.now (building_of self.old) }
        ensures same { SameLent self.old self.new }
    {
        let count = self.state.count;
        let row = bytes::row(f);
        store::copy(&row, 0, self.table, field::SIZE * count, field::SIZE);
        let slot = bytes::slot(name);
        store::copy(
            &slot,
            0,
            self.names,
            layout::block::NAME * count,
            layout::block::NAME,
        );
        self.state.count = count + 1;
        self.state.cursor = field::end_of(f);
    }

    // Is there room for n fields more, up to `end`?
    fn has_room(&self, n: usize, end: usize) -> bool
        ensures { result ≡ fits n end (building_of self.now) }
    {
        let c = self.state;
        let most = c.most.min(limits::MAX_FIELDS);
        let lent = (self.table.len() / field::SIZE).min(self.names.len() / layout::block::NAME);
        let room = most.min(lent);
        if room < c.count {
            return false;
        }
        (n <= room - c.count) & (end <= limits::MAX_BYTES)
    }

    fn pad_to(&mut self, cat: &[u8], to: usize)
        requires { (to < 65536) × (gaps self.old.state to + self.old.state.count ≤ room (building_of self.old)) }
        ensures made { building_of self.new ≡ pad_to cat.now to (building_of self.old) }
        ensures same { SameLent self.old self.new }
    {
        let from = self.state.cursor;
        if from < to {
            self.push(padding_field(cat, from, to - from), &cat[0..0]);
        }
    }

    // The cursor goes to `to`, unless that is behind it.
    pub fn move_to(&mut self, cat: &[u8], to: usize) -> Result<FieldCursor, Refusal>
        ensures made { outcome_of result self.new ≡ move_to cat.now to (building_of self.old) }
        ensures same { SameLent self.old self.new }
        ensures stands { self.new.state ≡ state_or self.old.state result }
    {
        if !((self.state.cursor <= to) & self.has_room(gaps(self.state, to), to)) {
            return Err(Refusal::CursorFull);
        }
        self.pad_to(cat, to);
        Ok(self.state)
    }

    // Padding up to where the field lies, and the field.
    fn lay(&mut self, cat: &[u8], f: FieldDef, name: &[u8]) -> Result<FieldCursor, Refusal>
        requires { length name.now ≤ max_name }
        ensures made { outcome_of result self.new ≡ lay cat.now f name.now (building_of self.old) }
        ensures same { SameLent self.old self.new }
        ensures stands { self.new.state ≡ state_or self.old.state result }
    {
        let to = f.offset as usize;
        if !self.has_room(gaps(self.state, to) + 1, field::end_of(f)) {
            return Err(Refusal::CursorFull);
        }
        self.pad_to(cat, to);
        self.push(f, name);
        Ok(self.state)
    }

    // 2, then 15, then 14: a cursor past its limit has no field placed at it.
    pub fn place(
        &mut self,
        cat: &[u8],
        takes: bool,
        align: usize,
        f: FieldDef,
        name: &[u8],
    ) -> Result<FieldCursor, Refusal>
        requires { align < 16 }
        ensures made { outcome_of result self.new ≡ place cat.now takes align f name.now (building_of self.old) }
        ensures same { SameLent self.old self.new }
        ensures stands { self.new.state ≡ state_or self.old.state result }
    {
        if limits::MAX_NAME < name.len() {
            return Err(Refusal::BadShape);
        }
        if !(takes & size_ok(cat, f)) {
            return Err(Refusal::BadCall);
        }
        if limits::MAX_BYTES < self.state.cursor {
            return Err(Refusal::CursorFull);
        }
        self.lay(cat, laid_field(cat, self.state, align, f), name)
    }
}
