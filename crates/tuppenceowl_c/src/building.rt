// The field cursor's calls. A refused call leaves the state, the table and the names as they were. C lends the three apart, so they stand apart here.
ghost use Rattle.std.specs.Prelude.{◌≡◌};
ghost use Rattle.field.specs.Field.{field_at};
ghost use Rattle.cursor_rules.specs.declared.Times.TheVariants.{One, Array};
ghost use Rattle.calls_rules.specs.Calls.{scalar_of, string_of, like_of, nested_of, at_of, finish_base_of};
ghost use Rattle.finishing.specs.Finish.{finish_of};
ghost use Rattle.tuppenceowl_c.specs.Building.{lent_to, hosted, hosted_of};

use crate::state;
use crate::state::State;
use builders::bytes::Row;
use cursor_rules::Times;
use tuppenceowl::building;

#[unsafe(no_mangle)]
pub extern "C" fn owl_cursor_scalar(
    cat: &[u8],
    table: &mut [u8],
    names: &mut [u8],
    state: &mut State,
    field_id: u16,
    type_id: u8,
    size: u16,
    flags: u8,
    def_index: u16,
    name: &[u8],
) -> u8
    ensures { hosted result state.new table.new names.new ≡ hosted_of (scalar_of cat.now field_id type_id size flags def_index name.now (lent_to state.old table.old names.old)) state.old }
{
    let c = state::state_in(state);
    let p = building::scalar(
        cat, table, names, c, field_id, type_id, size, flags, def_index, name,
    );
    state::tell(p, state)
}

#[unsafe(no_mangle)]
pub extern "C" fn owl_cursor_string(
    cat: &[u8],
    table: &mut [u8],
    names: &mut [u8],
    state: &mut State,
    field_id: u16,
    type_id: u8,
    size: u16,
    flags: u8,
    name: &[u8],
) -> u8
    ensures { hosted result state.new table.new names.new ≡ hosted_of (string_of cat.now field_id type_id size flags name.now (lent_to state.old table.old names.old)) state.old }
{
    let c = state::state_in(state);
    let p = building::string(cat, table, names, c, field_id, type_id, size, flags, name);
    state::tell(p, state)
}

#[unsafe(no_mangle)]
pub extern "C" fn owl_cursor_like(
    cat: &[u8],
    table: &mut [u8],
    names: &mut [u8],
    state: &mut State,
    like: &Row,
    def_index: u16,
    name: &[u8],
) -> u8
    ensures { hosted result state.new table.new names.new ≡ hosted_of (like_of cat.now (field_at like.now 0) def_index name.now (lent_to state.old table.old names.old)) state.old }
{
    let c = state::state_in(state);
    let def = field::field_in(like, 0);
    let p = building::like(cat, table, names, c, def, def_index, name);
    state::tell(p, state)
}

#[unsafe(no_mangle)]
pub extern "C" fn owl_cursor_nested(
    cat: &[u8],
    layout: &[u8],
    table: &mut [u8],
    names: &mut [u8],
    state: &mut State,
    field_id: u16,
    k: u16,
    name: &[u8],
) -> u8
    ensures { hosted result state.new table.new names.new ≡ hosted_of (nested_of cat.now layout.now field_id k One name.now (lent_to state.old table.old names.old)) state.old }
{
    let c = state::state_in(state);
    let p = building::nested(cat, layout, table, names, c, field_id, k, Times::One, name);
    state::tell(p, state)
}

#[unsafe(no_mangle)]
pub extern "C" fn owl_cursor_nested_array(
    cat: &[u8],
    layout: &[u8],
    table: &mut [u8],
    names: &mut [u8],
    state: &mut State,
    field_id: u16,
    k: u16,
    count: u16,
    name: &[u8],
) -> u8
    ensures { hosted result state.new table.new names.new ≡ hosted_of (nested_of cat.now layout.now field_id k (Array count) name.now (lent_to state.old table.old names.old)) state.old }
{
    let c = state::state_in(state);
    let times = Times::Array(count);
    let p = building::nested(cat, layout, table, names, c, field_id, k, times, name);
    state::tell(p, state)
}

#[unsafe(no_mangle)]
pub extern "C" fn owl_cursor_at(
    cat: &[u8],
    table: &mut [u8],
    names: &mut [u8],
    state: &mut State,
    offset: usize,
) -> u8
    ensures { hosted result state.new table.new names.new ≡ hosted_of (at_of cat.now offset (lent_to state.old table.old names.old)) state.old }
{
    let c = state::state_in(state);
    let p = building::at(cat, table, names, c, offset);
    state::tell(p, state)
}

#[unsafe(no_mangle)]
pub extern "C" fn owl_cursor_finish_base(
    cat: &[u8],
    table: &mut [u8],
    names: &mut [u8],
    state: &mut State,
) -> u8
    ensures { hosted result state.new table.new names.new ≡ hosted_of (finish_base_of cat.now (lent_to state.old table.old names.old)) state.old }
{
    let c = state::state_in(state);
    let p = building::finish_base(cat, table, names, c);
    state::tell(p, state)
}

#[unsafe(no_mangle)]
pub extern "C" fn owl_cursor_finish(
    cat: &[u8],
    table: &mut [u8],
    names: &mut [u8],
    state: &mut State,
    ids: &[u16],
) -> u8
    ensures { hosted result state.new table.new names.new ≡ hosted_of (finish_of cat.now ids.now (lent_to state.old table.old names.old)) state.old }
{
    let c = state::state_in(state);
    let p = building::finish(cat, table, names, c, ids);
    state::tell(p, state)
}
