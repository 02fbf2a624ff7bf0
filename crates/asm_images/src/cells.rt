//! What is left of a group whose span is put anew.

ghost use Rattle.asm_images.specs.SpanLaws.{CellIsPut, CellStays, FilesArePut, LengthStays};

/// All but the span's file stays, and that is put.
pub fn files_are_put()
    ensures { FilesArePut }
{}

/// The file keeps its length.
pub fn length_stays()
    ensures { LengthStays }
{}

/// A cell that lies in the span is put, by its inner byte.
pub fn cell_is_put()
    ensures { CellIsPut }
{}

/// Any other cell stays.
pub fn cell_stays()
    ensures { CellStays }
{}
