// Pages as bytes.
ghost use Rattle.std.specs.Prelude.{◌≡◌, ◌≤◌, ◌+◌, ◌*◌, ◌++◌, length, take, flat_map};
ghost use Rattle.std.specs.List.{All};
ghost use Rattle.change_directory.specs.Logs.{bytes_of_page};

use asm_base::Block;

/// Puts pages one behind the other.
pub(crate) fn gather(pages: &[(u32, Block)], to: &mut [u8])
    requires { length pages.now * 4096 ≤ length to.old }
    ensures gathered { take (length pages.now * 4096) to.new ≡ flat_map bytes_of_page pages.now }
    ensures blocks { All (λ p. length (bytes_of_page p) ≡ 4096) pages.now }
{
    let mut at = 0;
    for page in pages {
        put_page(page, to, at);
        at += 4096;
    }
}

/// Puts a page at a place.
fn put_page(page: &(u32, Block), to: &mut [u8], at: usize)
    requires { at + 4096 ≤ length to.old }
    ensures front { take (at + 4096) to.new ≡ take at to.old ++ bytes_of_page page.now }
    ensures size { length to.new ≡ length to.old }
    ensures block { length (bytes_of_page page.now) ≡ 4096 }
{
    let block = &page.1;
    to[at..at + 4096].copy_from_slice(&block.bytes);
}
