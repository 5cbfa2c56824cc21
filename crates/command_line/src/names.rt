//! A name or a text of the user's on one line, and the bytes that such a line stands for.
ghost use Rattle.std.specs.Prelude.{◌≡◌, ◌<◌, IfOk, IfSome, OnOk, ◌++◌, string_bytes, flat_map};
ghost use Rattle.std.specs.Str.{chars};
ghost use Rattle.std.specs.Char.{digit_char};
ghost use Rattle.command_line.specs.Names.{byte_shown, char_shown, hex_value, is_hidden, one_line};

use std::alloc::{AllocError, Global};

/// The characters that are not written as they are, each range with its ends: the backslash, control characters, line
/// ends, and what has no shape of its own, such as the marks that turn the direction of a text.
const HIDDEN: [(u32, u32); 21] = [
    (0, 0x1f),
    (0x5c, 0x5c),
    (0x7f, 0x9f),
    (0xad, 0xad),
    (0x34f, 0x34f),
    (0x61c, 0x61c),
    (0x115f, 0x1160),
    (0x17b4, 0x17b5),
    (0x180b, 0x180f),
    (0x200b, 0x200f),
    (0x2028, 0x202e),
    (0x2060, 0x206f),
    (0x2800, 0x2800),
    (0x3164, 0x3164),
    (0xfe00, 0xfe0f),
    (0xfeff, 0xfeff),
    (0xffa0, 0xffa0),
    (0xfff0, 0xfffb),
    (0x1_bca0, 0x1_bca3),
    (0x1_d173, 0x1_d17a),
    (0xe_0000, 0xe_0fff),
];

/// Whether a character is not written as it is.
fn is_hidden(c: char) -> bool
    ensures { result ≡ is_hidden c }
{
    let code = u32::from(c);
    HIDDEN
        .iter()
        .any(|(first, last)| *first <= code && code <= *last)
}

/// A hexadecimal digit, in lower case.
fn digit(value: u8) -> char
    requires { value < 16 }
    ensures value { result ≡ digit_char value }
    ensures ascii { result < 128 }
{
    char::from(if value < 10 {
        b'0' + value
    } else {
        b'a' - 10 + value
    })
}

/// Adds a byte to a line.
fn push_byte(line: &mut String, byte: u8) -> Result<(), AllocError>
    ensures { OnOk result (string_bytes line.new ≡ string_bytes line.old ++ byte_shown byte) }
{
    match byte {
        b'\n' => line.push_str("\\n"),
        b'\t' => line.push_str("\\t"),
        b'\\' => line.push_str("\\\\"),
        b' '..=b'~' => line.push(char::from(byte)),
        _ => {
            line.push_str("\\x")?;
            line.push(digit(byte / 16))?;
            line.push(digit(byte % 16))
        }
    }
}

/// Adds each of these bytes to a line.
fn push_bytes(line: &mut String, bytes: &[u8]) -> Result<(), AllocError>
    ensures { OnOk result (string_bytes line.new ≡ string_bytes line.old ++ flat_map byte_shown bytes.now) }
{
    for byte in bytes {
        push_byte(line, *byte)?;
    }
    Ok(())
}

/// Adds a character to a line.
fn push_char(line: &mut String, c: char) -> Result<(), AllocError>
    ensures { OnOk result (string_bytes line.new ≡ string_bytes line.old ++ char_shown c) }
{
    if !is_hidden(c) {
        return line.push(c);
    }
    let mut room = [0u8; 4];
    push_bytes(line, c.encode_utf8(&mut room).as_bytes())
}

/// Adds each character of a text to a line.
fn push_chars(line: &mut String, text: &str) -> Result<(), AllocError>
    ensures { OnOk result (string_bytes line.new ≡ string_bytes line.old ++ flat_map char_shown (chars text.now)) }
{
    for c in text.chars() {
        push_char(line, c)?;
    }
    Ok(())
}

/// A text on one line, by its characters.
fn text_shown(alloc: Global, text: &str) -> Result<String, AllocError>
    ensures { IfOk result (λ line. string_bytes line ≡ flat_map char_shown (chars text.now)) }
{
    let mut line = String::new(alloc);
    push_chars(&mut line, text)?;
    Ok(line)
}

/// What is no text on one line, by its bytes.
fn bytes_shown(alloc: Global, bytes: &[u8]) -> Result<String, AllocError>
    ensures { IfOk result (λ line. string_bytes line ≡ flat_map byte_shown bytes.now) }
{
    let mut line = String::new(alloc);
    push_bytes(&mut line, bytes)?;
    Ok(line)
}

/// A name or a text on one line. What prints stands as it is, but a backslash is doubled. A character that is hidden,
/// such as a control character, a line's end or a mark of direction, stands as `\n`, `\t`, or `\x` and two digits for
/// each of its bytes; so does, in what is no text, each byte that is no ASCII that prints.
pub fn one_line(alloc: Global, name: &[u8]) -> Result<String, AllocError>
    ensures { IfOk result (λ line. string_bytes line ≡ one_line name.now) }
{
    match str::from_utf8(name) {
        Ok(text) => text_shown(alloc, text),
        Err(_) => bytes_shown(alloc, name),
    }
}

/// The value of a hexadecimal digit in lower case; 0 for any other byte.
fn hex_value(byte: u8) -> u8
    ensures value { result ≡ hex_value byte }
    ensures bound { result < 16 }
{
    match byte {
        b'0'..=b'9' => byte - b'0',
        b'a'..=b'f' => byte - b'a' + 10,
        _ => 0,
    }
}

/// The first byte that a line stands for, and the rest of the line.
fn next_byte(line: &[u8]) -> Option<(u8, &[u8])> {
    match line {
        [b'\\', b'n', rest @ ..] => Some((b'\n', rest)),
        [b'\\', b't', rest @ ..] => Some((b'\t', rest)),
        [b'\\', b'x', high, low, rest @ ..] => {
            Some((16 * hex_value(*high) + hex_value(*low), rest))
        }
        [b'\\', byte, rest @ ..] | [byte, rest @ ..] => Some((*byte, rest)),
        [] => None,
    }
}

/// The bytes of a line, each as it is or behind a backslash.
fn bytes_of(alloc: Global, line: &str) -> Result<Vec<u8>, AllocError> {
    let mut bytes = Vec::new(alloc);
    let mut left = line.as_bytes();
    for _ in 0..left.len() {
        let Some((byte, rest)) = next_byte(left) else {
            break;
        };
        bytes.push(byte)?;
        left = rest;
    }
    Ok(bytes)
}

/// The bytes that a line stands for; none for a line that [`one_line`] never writes.
pub fn read_back(alloc: Global, line: &str) -> Result<Option<Vec<u8>>, AllocError>
    ensures { IfOk result (λ read. IfSome read (λ name. one_line name.items ≡ line.now)) }
{
    let name = bytes_of(alloc, line)?;
    let again = one_line(alloc, name.as_slice())?;
    Ok(if again.as_str() == line {
        Some(name)
    } else {
        None
    })
}

#[cfg(test)]
mod tests;
