//! Want of memory as a refusal.

ghost use Rattle.std.specs.Prelude.{◌≡◌};
ghost use Rattle.refusal_lines.specs.declared.refusal.Refusal.TheVariants.{NoMemory as WithoutMemory};

use asm_base::NoMemory;
use refusal_lines::Refusal;

/// Want of memory as a refusal.
pub(crate) fn no_memory(_: NoMemory) -> Refusal
    ensures { result ≡ WithoutMemory }
{
    Refusal::NoMemory
}
