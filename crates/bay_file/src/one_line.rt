// A text as one line.
ghost use Rattle.std.specs.Prelude.{◌≡◌, ◌<◌, ◌++◌, IfOk, OnOk, All, length};
ghost use Rattle.bay_file.specs.OneLine.{IsShown, IsOneLine};

use std::alloc::{AllocError, Global};

// A text as one line with its line feed, whatever it holds: a byte below 32, and the byte 127, is
// shown by an escape.
pub fn on_one_line(alloc: Global, text: &str) -> Result<Vec<u8>, AllocError>
    ensures { IfOk result (λ line. IsOneLine line.items) }
{
    let mut line = shown(alloc, text.as_bytes())?;
    line.push(b'\n')?;
    Ok(line)
}

fn shown(alloc: Global, bytes: &[u8]) -> Result<Vec<u8>, AllocError>
    ensures { IfOk result (λ shown. All IsShown shown.items) }
{
    let mut shown = Vec::with_capacity(alloc, bytes.len().saturating_add(1))?;
    for byte in bytes {
        push_shown(&mut shown, *byte)?;
    }
    Ok(shown)
}

fn push_shown(line: &mut Vec<u8>, byte: u8) -> Result<(), AllocError>
    ensures { OnOk result (All IsShown line.old.items → All IsShown line.new.items) }
{
    match byte {
        b'\n' => line.extend_from_slice(b"\\n"),
        b'\r' => line.extend_from_slice(b"\\r"),
        b'\t' => line.extend_from_slice(b"\\t"),
        0..=31 | 127 => {
            let escape = [b'\\', b'x', digit(byte / 16), digit(byte % 16)];
            line.extend_from_slice(&escape)
        }
        _ => Ok(line.push(byte)?),
    }
}

// A hexadecimal digit.
fn digit(value: u8) -> u8
    requires { value < 16 }
    ensures { IsShown result }
{
    if value < 10 {
        b'0' + value
    } else {
        b'a' + (value - 10)
    }
}
