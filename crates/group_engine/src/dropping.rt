// Directory copies that failed are taken out of the status record.
ghost use Rattle.std.specs.Prelude.{◌≡◌, false, IsTrue};
ghost use Rattle.asm_formats.specs.Status.{is_status};
ghost use Rattle.status_register.specs.Keeping.{IsRegisterReady};
ghost use Rattle.status_register.specs.Reaching.{Reaches};
ghost use Rattle.group_engine.specs.Dropping.{IsWithout, WritesFewer};

use asm_base::DiskSet;
use bay::Bay;
use status_register::{Dead, Register, with_dirs};

/// A set without the disks of another.
fn without(all: DiskSet, gone: DiskSet) -> DiskSet
    ensures { IsWithout result all gone }
{
    let mut left = all;
    for disk in 0..64u8 {
        if gone.has(disk) {
            left = left.without(disk);
        }
    }
    left
}

/// Writes the record that holds without the directory copies of some disks.
pub(crate) fn drop_copies<B: Bay>(
    bay: &mut B,
    register: &mut Register,
    gone: DiskSet,
) -> Result<DiskSet, Dead>
    requires status { IsTrue (is_status register.old.value) }
    requires written { register.old.is_fresh ≡ false }
    requires ready { IsRegisterReady register.old (B.state bay.old) }
    requires majority { Reaches register.old.members register.old.value }
    ensures { WritesFewer register.old gone result register.new (B.state bay.old)
        (B.state bay.new) }
{
    let value = register.value();
    let left = without(value.dirs, gone);
    let next = with_dirs(value, left);
    register.write(bay, &next)
}
