// The block of one layout (docs/FORMATS.md), as it grows.
ghost use Rattle.std.specs.Prelude.{◌≡◌, ◌+◌, ◌*◌, ◌<◌, ◌≤◌, length, min, take, IfSome, OnOk, OnErr};

use caseline::put;
use field::Holder;
use layout::block;

pub const ROOM: usize = 65536;

// Places of a record's head, and of a struct's.
const SCHEMA_AT: usize = 2;

const BASE_AT: usize = 4;

const TABLE_AT: usize = 16;

const NAMES_AT: usize = 24;

const NAME_AT: usize = 32;

const STRUCT_TABLE_AT: usize = 4;

const STRUCT_NAME_AT: usize = 12;

// Puts a number of four bytes at a place, low byte first.
fn put_number(bytes: &mut [u8], at: usize, n: usize) {
    put::text(bytes, at, &n.to_le_bytes()[..4]);
}

// The layouts take more bytes than there are.
#[derive(Clone, Copy, Debug, PartialEq, Eq)]
pub struct Full;

#[derive(Clone, Copy)]
pub struct Block {
    pub bytes: [u8; ROOM],
    // Where it ends.
    pub end: usize,
    // How many are whole.
    pub records: u8,
    pub structs: u8,
    ghost inside: { end < 65536 },
}

impl Block {
    ghost use Rattle.owl_blocks.specs.Whole.{whole_of, IsAsWhole};

    // Of a layout that will have so many records and structs: where the first table begins depends on them.
    pub fn new(records: u8, structs: u8) -> Self
        ensures { result.end ≡ 8 + 72 * records + 48 * structs }
    {
        let mut bytes = [0; ROOM];
        bytes[0] = records;
        bytes[2] = structs;
        let heads = block::RECORD_HEAD * usize::from(records);
        let struct_heads = block::STRUCT_HEAD * usize::from(structs);
        Block {
            bytes,
            end: block::record_head(0).at() + heads + struct_heads,
            records: 0,
            structs: 0,
        }
    }

    // The layout so far.
    pub fn layout(&self) -> &[u8]
        ensures { result.now ≡ take self.now.end self.now.bytes }
    {
        &self.bytes[..self.end]
    }

    // ---- heads

    fn head(&self, holder: Holder, k: u8) -> usize
        ensures { result < 4000000000 }
    {
        match holder {
            Holder::Record => block::record_head(usize::from(k)).at(),
            Holder::Struct => block::struct_head(&self.bytes, u16::from(k)).at(),
        }
    }

    fn name_at(&self, holder: Holder, k: u8) -> usize
        ensures { result < 4000000100 }
    {
        let at = match holder {
            Holder::Record => NAME_AT,
            Holder::Struct => STRUCT_NAME_AT,
        };
        self.head(holder, k) + at
    }

    pub fn name_of(&self, holder: Holder, k: u8) -> &[u8] {
        let at = self.name_at(holder, k);
        let layout = self.layout();
        lent::part(layout, at + 1, usize::from(lent::byte_at(layout, at)))
    }

    pub fn rtype_of(&self, k: u8) -> u16 {
        lent::u16_at(self.layout(), self.head(Holder::Record, k))
    }

    // How many are whole.
    fn whole(&self, holder: Holder) -> u8
        ensures { result ≡ whole_of holder self.now }
    {
        match holder {
            Holder::Record => self.records,
            Holder::Struct => self.structs,
        }
    }

    // The first whole one of this name.
    pub fn named(&self, holder: Holder, name: &[u8]) -> Option<u8>
        ensures { IfSome result (λ k. k < whole_of holder self.now) }
    {
        (0..self.whole(holder)).find(|&k| self.name_of(holder, k) == name)
    }

    fn put_name(&mut self, holder: Holder, k: u8, name: &[u8])
        ensures { IsAsWhole self.old self.new }
    {
        let at = self.name_at(holder, k);
        put::text(&mut self.bytes, at, &name.len().to_le_bytes()[..1]);
        put::text(&mut self.bytes, at + 1, name);
    }

    pub fn open_record(&mut self, rtype: u16, schema: u16, name: &[u8])
        ensures { IsAsWhole self.old self.new }
    {
        let at = self.head(Holder::Record, self.records);
        put::text(&mut self.bytes, at, &rtype.to_le_bytes());
        put::text(&mut self.bytes, at + SCHEMA_AT, &schema.to_le_bytes());
        self.put_name(Holder::Record, self.records, name);
    }

    pub fn open_struct(&mut self, name: &[u8])
        ensures { IsAsWhole self.old self.new }
    {
        self.put_name(Holder::Struct, self.structs, name);
    }

    // ---- tables and names, behind all others

    // Where the part stands and how long it is goes into a head.
    fn push(&mut self, head: usize, part: &[u8]) -> Result<(), Full>
        requires { head < 4000000100 }
        ensures ok { OnOk result (self.new.end ≡ self.old.end + length part.now) }
        ensures full { OnErr result (65536 ≤ self.old.end + length part.now) }
        ensures records { self.new.records ≡ self.old.records }
        ensures structs { self.new.structs ≡ self.old.structs }
    {
        let from = self.end;
        let end = from + part.len();
        if ROOM <= end {
            return Err(Full);
        }
        put::text(&mut self.bytes, from, part);
        self.end = end;
        put_number(&mut self.bytes, head, from);
        put_number(&mut self.bytes, head + 4, part.len());
        Ok(())
    }

    pub fn close_record(&mut self, base: usize, table: &[u8], names: &[u8]) -> Result<(), Full>
        ensures ok { OnOk result (self.new.end ≡ self.old.end + length table.now + length names.now) }
        ensures counted { OnOk result (self.new.records ≡ min 255 (self.old.records + 1)) }
        ensures full { OnErr result (65536 ≤ self.old.end + length table.now + length names.now) }
    {
        let at = self.head(Holder::Record, self.records);
        put_number(&mut self.bytes, at + BASE_AT, base);
        self.push(at + TABLE_AT, table)?;
        self.push(at + NAMES_AT, names)?;
        self.records = self.records.saturating_add(1);
        Ok(())
    }

    pub fn close_struct(&mut self, size: usize, table: &[u8]) -> Result<(), Full>
        ensures ok { OnOk result (self.new.end ≡ self.old.end + length table.now) }
        ensures counted { OnOk result (self.new.structs ≡ min 255 (self.old.structs + 1)) }
        ensures full { OnErr result (65536 ≤ self.old.end + length table.now) }
    {
        let at = self.head(Holder::Struct, self.structs);
        put_number(&mut self.bytes, at, size);
        self.push(at + STRUCT_TABLE_AT, table)?;
        self.structs = self.structs.saturating_add(1);
        Ok(())
    }
}
