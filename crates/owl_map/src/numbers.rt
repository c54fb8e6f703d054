// The numbers of a plan's slot (docs/FORMATS.md).
ghost use Rattle.std.specs.Prelude.{◌<◌, ◌≤◌};

pub type Slot = [u8; slot::SIZE];

// Where the head's numbers stand.
pub const SOURCE_RTYPE: usize = 0;

pub const TARGET_RTYPE: usize = 2;

pub const SOURCE_BASE: usize = 4;

pub const HEADER: usize = 6;

pub const TARGET_BASE: usize = 8;

pub const TARGET_SIZE: usize = 10;

pub const STEPS: usize = 12;

/// A plan that lies in its slot.
#[derive(Clone, Copy)]
pub struct Plan<'a>(pub &'a Slot);

impl<'a> Plan<'a> {
    pub fn number(self, at: usize) -> usize
        requires { at < 65536 }
        ensures { result < 65536 }
    {
        let slot = self.0;
        usize::from(lent::u16_at(slot, at))
    }

    pub fn header(self) -> usize
        ensures { result < 65536 }
    {
        self.number(HEADER)
    }

    pub fn size(self) -> usize
        ensures { result ≤ 4096 }
    {
        self.number(TARGET_SIZE).min(limits::MAX_BYTES)
    }

    // How many.
    pub fn steps(self) -> usize
        ensures { result ≤ 128 }
    {
        self.number(STEPS).min(limits::MAX_STEPS)
    }

    // n bytes of the default body, from the target's byte `from` on.
    pub fn body(self, from: usize, n: usize) -> &'a [u8] {
        let start = from.min(limits::MAX_BYTES).saturating_sub(self.header());
        let slot = self.0;
        lent::part(slot, slot::BODY_FROM + start, n)
    }
}
