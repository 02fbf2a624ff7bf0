//! What a write to users' bytes does, from the homes that directories name.

ghost use Rattle.asm_images.specs.WriteLaws.{CopyWriteIsPiece, FreeWriteIsSpare, HomesAreApart};

/// Homes that fit lie apart.
pub fn homes_are_apart()
    ensures { HomesAreApart }
{}

/// A write to free units is one of spare bytes.
pub fn free_write_is_spare()
    ensures { FreeWriteIsSpare }
{}

/// A write to the span of one copy is a piece.
pub fn copy_write_is_piece()
    ensures { CopyWriteIsPiece }
{}
