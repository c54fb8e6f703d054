// Verdict of dbn's layout.rs: read as compiled, or field by field.
#[derive(Clone, Copy, Debug, PartialEq, Eq)]
pub enum Verdict {
    Compiled,
    Dynamic,
}
