//! The numbers by which bytes and places are chosen, and the fill that each says.

ghost use Rattle.std.specs.Prelude.{◌≡◌, ◌≤◌, ◌<◌, ◌+◌, [], length};
ghost use Rattle.asm_world.specs.Generator.{create_file, fill_command, megabytes, next_choice};
ghost use Rattle.asm_world.specs.Text.{hex, hex_digit};

use line_buffer::LineBuffer;

/// The next of the numbers.
#[tactic(auto, using(crate::proofs::Choices::wrapped))]
pub fn next_choice(x: u64) -> u64
    ensures { result ≡ next_choice x }
{
    x.wrapping_mul(6364136223846793005)
        .wrapping_add(1442695040888963407)
}

fn hex_digit(n: u8) -> u8
    requires { n < 16 }
    ensures { result ≡ hex_digit n }
{
    if n < 10 { n + 48 } else { n + 87 }
}

/// Two lower case hexadecimal digits.
fn hex(byte: u8) -> [u8; 2]
    ensures { result ≡ hex byte }
{
    [hex_digit(byte / 16), hex_digit(byte % 16)]
}

/// The size of file k, in megabytes.
fn megabytes(k: u64) -> u64
    ensures size { result ≡ megabytes k }
    ensures few { result ≤ 4 }
    ensures some { 0 < result }
{
    1 + k % 4
}

/// Puts the command that makes file k.
pub fn put_file(line: &mut LineBuffer, k: u64)
    requires { line.old ≡ [] }
    ensures text { line.new ≡ create_file k }
    ensures len { length line.new ≤ 799 }
{
    line.put(b"dbcreate +DATA/gen/DATAFILE/f");
    line.put_number(k);
    line.put_count(megabytes(k));
    line.put(b"M");
}

/// Puts the command that fills one sector of one file with one byte, as the number says.
pub fn put_fill(line: &mut LineBuffer, x: u64)
    requires { line.old ≡ [] }
    ensures text { line.new ≡ fill_command x }
    ensures len { length line.new ≤ 799 }
{
    let k = x / (1 << 33) % 16;
    let sector = x / (1 << 13) % (megabytes(k) * 2048);
    let byte = x / (1 << 50) % 256;
    line.put(b"dbfill +DATA/gen/DATAFILE/f");
    line.put_number(k);
    line.put(b".");
    line.put_number(256 + k);
    line.put(b".");
    line.put_number(k + 1);
    line.put_count(sector * 512);
    line.put(b" 512 ");
    line.put(&hex(byte as u8));
}
