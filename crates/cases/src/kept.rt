// What is kept from line to line.
use crate::cursor::Built;
use crate::layouts::Last;
use crate::plans::Plans;
use crate::upgrades::Target;

#[derive(Drop)]
pub struct Kept {
    pub last: Last,
    pub built: Built,
    pub plans: Plans,
    pub target: Target,
}
