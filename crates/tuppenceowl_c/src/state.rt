// The field cursor's state as five lent numbers: most, count, cursor, base, and whether the base is noted.
ghost use Rattle.std.specs.Prelude.{◌≡◌};
ghost use Rattle.cursor_rules.specs.Cursor.{fresh};
ghost use Rattle.tuppenceowl_c.specs.Building.{state_in, state_out, holder_of, placed_status, state_or};

use cursor_rules::FieldCursor;
use field::Holder;
use limits::refusal::Refusal;

pub type State = [usize; 5];

pub fn state_in(s: &State) -> FieldCursor
    ensures { result ≡ state_in s.now }
{
    FieldCursor {
        most: s[0],
        count: s[1],
        cursor: s[2],
        base: s[3],
        based: s[4] != 0,
    }
}

fn state_out(c: FieldCursor) -> State
    ensures { result ≡ state_out c }
{
    [
        c.most,
        c.count,
        c.cursor,
        c.base,
        lent::wide8(lent::one(c.based)),
    ]
}

pub fn tell(answer: Result<FieldCursor, Refusal>, state: &mut State) -> u8
    ensures status { result ≡ placed_status answer }
    ensures state { state.new ≡ state_or answer state.old }
{
    match answer {
        Ok(c) => {
            *state = state_out(c);
            0
        }
        Err(why) => limits::refusal::number(why),
    }
}

// C has a flag for it.
fn holder_of(of_struct: bool) -> Holder
    ensures { result ≡ holder_of of_struct }
{
    if of_struct {
        return Holder::Struct;
    }
    Holder::Record
}

#[unsafe(no_mangle)]
pub extern "C" fn owl_cursor_empty(of_struct: bool, state: &mut State)
    ensures { state.new ≡ state_out (fresh (holder_of of_struct)) }
{
    *state = state_out(tuppenceowl::building::empty(holder_of(of_struct)));
}
