//! Lines: the line of a verdict, written into lent text memory.
#![tactic(auto)]

ghost use Rattle.std.specs.Prelude.{◌≤◌, length, IsOk};
ghost use Rattle.lines.specs.Lines.{words, ok_line, no_line, LineWritten};

mod numbers;
mod room;

use numbers::put_numbers;
use refusals::Refusal;
use room::room_after;

/// Puts the line of an accepted sheet at the start of the text memory: `ok`, and the steps of its order. Says how many
/// bytes that is, line end included. Refused: `TextMemoryShort`, with nothing written, where they are too many.
pub fn write_order(text: &mut [u8], order: &[u16]) -> Result<usize, Refusal>
    ensures { LineWritten (ok_line order.now) text.old result text.new }
{
    write_words(text, b"ok", order)
}

/// Puts the line of a refused sheet at the start of the text memory: `no`, which refusal it is, and the number of the
/// step, arc or place that it names. Says how many bytes that is, and is refused, as `write_order`; no line of this
/// sort has more than 15 bytes.
pub fn write_refusal(text: &mut [u8], refusal: Refusal) -> Result<usize, Refusal>
    ensures line { LineWritten (no_line refusal) text.old result text.new }
    ensures fits { 15 ≤ length text.old → IsOk result }
{
    let numbers = [u16::from(refusal.number()), refusal.detail()];
    write_words(text, b"no", &numbers)
}

/// Writes a word, the numbers, each after a space, and the line's end.
fn write_words(text: &mut [u8], word: &[u8], row: &[u16]) -> Result<usize, Refusal>
    ensures { LineWritten (words word.now row.now) text.old result text.new }
{
    let left = room_after(text.len(), row).ok_or(Refusal::TextMemoryShort)?;
    if left <= word.len() {
        return Err(Refusal::TextMemoryShort);
    }
    let length = text.len() - left + word.len() + 1;
    let line = &mut text[..length];
    line[..word.len()].copy_from_slice(word);
    let end = put_numbers(line, word.len(), row);
    line[end] = b'\n';
    Ok(length)
}
