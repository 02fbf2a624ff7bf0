// Fields that stand for a word or a small number.
ghost use Rattle.asm_base.specs.Readings.{flag_reading};
ghost use Rattle.byte_codes.specs.Words.{stripe_reading, node_kind_reading, pending_kind_reading};
ghost use Rattle.directory_page.specs.Checks.{Passes, check_of};
ghost use Rattle.asm_base.specs.Parts.{home_reading};
ghost use Rattle.record_values.specs.Values.{copies_reading, system_reading};

use asm_base::{Reader, take_flag};
use byte_codes::{take_node_kind, take_pending_kind, take_stripe};
use record_values::{take_copies, take_home, take_system};

/// Passes over a number of copies: 1 to 3.
pub(crate) fn pass_copies(from: &mut Reader) -> Option<()>
    ensures { Passes from.new result (check_of copies_reading from.old) }
{
    take_copies(from)?;
    Some(())
}

/// Passes over a stripe: 1 COARSE, 2 FINE.
pub(crate) fn pass_stripe(from: &mut Reader) -> Option<()>
    ensures { Passes from.new result (check_of stripe_reading from.old) }
{
    take_stripe(from)?;
    Some(())
}

/// Passes over yes or no: 1 or 0.
pub(crate) fn pass_flag(from: &mut Reader) -> Option<()>
    ensures { Passes from.new result (check_of flag_reading from.old) }
{
    take_flag(from)?;
    Some(())
}

/// Passes over the node of a system name, which isn't 0.
pub(crate) fn pass_system(from: &mut Reader) -> Option<()>
    ensures { Passes from.new result (check_of system_reading from.old) }
{
    take_system(from)?;
    Some(())
}

/// Passes over a home. An absent one is 255 and 0.
pub(crate) fn pass_home(from: &mut Reader) -> Option<()>
    ensures { Passes from.new result (check_of home_reading from.old) }
{
    take_home(from)?;
    Some(())
}

/// Passes over the kind of a pending operation: 1 create, 2 remove, 3 grow, 4 shrink.
pub(crate) fn pass_pending_kind(from: &mut Reader) -> Option<()>
    ensures { Passes from.new result (check_of pending_kind_reading from.old) }
{
    take_pending_kind(from)?;
    Some(())
}

/// Passes over the kind of a node: 1 directory, 2 system name, 3 alias.
pub(crate) fn pass_node_kind(from: &mut Reader) -> Option<()>
    ensures { Passes from.new result (check_of node_kind_reading from.old) }
{
    take_node_kind(from)?;
    Some(())
}
