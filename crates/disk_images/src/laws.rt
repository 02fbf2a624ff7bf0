//! What steps on the header of a disk leave of the groups. Each function has an empty body: its
//! contract is the law.

ghost use Rattle.disk_images.specs.Headers.{FormattedDisksShow, GatesClosingKeeps, HeaderClosingKeeps, HeaderPuttingKeeps, LeavingKeeps, MakingKeeps};

/// A disk that is no member of an id afterwards may change in any way.
pub fn leaving_keeps()
    ensures { LeavingKeeps }
{}

/// So it is where the image is made anew, of zeros.
pub fn making_keeps()
    ensures { MakingKeeps }
{}

/// At each moment while the gate of a header is closed every id keeps its groups.
pub fn header_closing_keeps()
    ensures { HeaderClosingKeeps }
{}

/// So it is while all gates of a disk are closed.
pub fn gates_closing_keeps()
    ensures { GatesClosingKeeps }
{}

/// So it is while a blank disk gets a header with which it may join its group.
pub fn header_putting_keeps()
    ensures { HeaderPuttingKeeps }
{}

/// A disk whose gates were closed and that has then got a header shows the header alone.
pub fn formatted_disks_show()
    ensures { FormattedDisksShow }
{}
