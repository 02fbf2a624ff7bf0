//! A group is dropped: its record is marked gone, and its disks lose their headers.
ghost use Rattle.std.specs.Prelude.{◌≡◌, ◌<◌, false, true};
ghost use Rattle.mounted_groups.specs.Dropping.{ClosesHeaders, ClosesHeaderAt, HasFile, HasNoFile, HaveHeaders};
ghost use Rattle.mounted_groups.specs.GroupCalls.{DropsGroup};
ghost use Rattle.group_engine.specs.Mounts.{Takes};

use bay::Bay;
use group_engine::Mounted;
use group_recovery::close_header;
use refusal_lines::Refusal;

/// Whether the group has a file.
fn has_file(m: &Mounted) -> bool
    ensures some { result ≡ true → HasFile m.now }
    ensures none { result ≡ false → HasNoFile m.now }
{
    match m.catalog().file_from(0) {
        Some(_) => true,
        None => false,
    }
}

/// Closes the header of the disk of a number, where it is attached. Where its slot fails the header
/// may stay: the group is gone all the same.
fn close_at<B: Bay>(m: &Mounted, bay: &mut B, number: u8)
    requires small { number < 64 }
    requires headers { HaveHeaders m.now (B.state bay.old) }
    ensures { ClosesHeaderAt m.now number (B.state bay.old) (B.state bay.new) }
{
    match m.slot(number) {
        Some(slot) => {
            let _ = close_header(bay, slot, m.catalog().shape());
        }
        None => {}
    }
}

/// Closes the headers of all attached disks, past faults.
fn close_all<B: Bay>(m: &Mounted, bay: &mut B)
    requires headers { HaveHeaders m.now (B.state bay.old) }
    ensures { ClosesHeaders m.now 64 (B.state bay.old) (B.state bay.new) }
{
    for number in 0..64u8 {
        close_at(m, bay, number);
    }
}

/// Drops a group: writes its record marked gone, and then closes the headers of its attached disks,
/// past faults. From then on the group takes no calls. Refusals in their order: Dismounted,
/// GroupNotEmpty where it has a file and the contents aren't to go with it, and Dismounted where
/// too few disks took the record. NoMemory comes of a group that is closed.
pub fn drop_group<B: Bay>(m: &mut Mounted, bay: &mut B, contents: bool) -> Result<(), Refusal>
    requires takes { Takes m.old (B.state bay.old) }
    ensures { DropsGroup m.old contents result m.new (B.state bay.old) (B.state bay.new) }
{
    m.takes_calls()?;
    if !contents && has_file(m) {
        return Err(Refusal::GroupNotEmpty);
    }
    m.end_group(bay)?;
    close_all(m, bay);
    Ok(())
}
