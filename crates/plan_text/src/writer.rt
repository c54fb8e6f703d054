// The writer.
ghost use Rattle.std.specs.Prelude.{◌≡◌, ◌≤◌, length};
ghost use Rattle.std.proofs.lemmas.List.Edits.{sets};
ghost use Rattle.plan_text.specs.Held.{Held};
ghost use Rattle.plan_text.specs.Writing.{text_in, written_of, after_writing};

use crate::{lengths, lines};
use limits::refusal::Refusal;

fn put_text(slot: &[u8], text: &mut [u8])
    requires { Held slot.now × (length (text_in slot.now) ≤ length text.old) }
    ensures { text.new ≡ sets text.old 0 (text_in slot.now) }
{
    let header = lent::wide16(lent::u16_in(slot, 6));
    let size = lent::wide16(lent::u16_in(slot, 10));
    let count = lent::wide16(lent::u16_in(slot, 12));
    let head = lines::put_head(slot, text, 0);
    let body = lines::put_body(slot, size - header, text, head);
    lines::put_steps(slot, count, text, body);
}

// The plan's text at the start of what is lent for it; the answer is its length.
pub fn write_plan(slot: &[u8], text: &mut [u8]) -> Result<usize, Refusal>
    ensures { (result ≡ written_of slot.now text.old) × (text.new ≡ after_writing slot.now text.old) }
{
    if !slot::check::is_ok(slot) {
        return Err(Refusal::BadPlan);
    }
    let n = lengths::of_text(slot);
    if text.len() < n {
        return Err(Refusal::NoRoom);
    }
    put_text(slot, text);
    Ok(n)
}
