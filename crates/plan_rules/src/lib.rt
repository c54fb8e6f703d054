// The field rule: what a target field takes from a source record, and laws about it.
#![tactic(auto)]

use field::FieldDef;

// A target field and its mark, which counts on a signed or unsigned field that is no array.
#[derive(Clone, Copy)]
pub struct Want {
    pub def: FieldDef,
    pub marked: bool,
}
