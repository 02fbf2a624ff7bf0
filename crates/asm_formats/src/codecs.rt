//! Each body has one spelling, and is decoded from it alone. Each law is the contract of a function
//! that does nothing.

ghost use Rattle.asm_formats.specs.Codecs.{AreBlocks, AreSmall, ClaimCodec, FrameCodec, HeaderCodec, IsItemCodec, IsStatusCodec, LogHeadCodec, RecordCodec};

/// The header of a disk.
#[tactic(auto, using(crate::proofs::Bodies::header_codec))]
pub fn header_codec()
    ensures { HeaderCodec }
{}

/// The claim of an epoch.
#[tactic(auto, using(crate::proofs::Bodies::claim_codec))]
pub fn claim_codec()
    ensures { ClaimCodec }
{}

/// The status record, in version 2 and in version 1.
#[tactic(auto, using(crate::proofs::Bodies::status_codec))]
pub fn status_codec()
    ensures { IsStatusCodec }
{}

/// Key and value of a directory record in its block.
#[tactic(auto, using(crate::proofs::Bodies::frame_codec))]
pub fn frame_codec()
    ensures { FrameCodec }
{}

/// The value of a directory record of each kind.
#[tactic(auto, using(crate::proofs::Bodies::item_codec))]
pub fn item_codec()
    ensures { IsItemCodec }
{}

/// A directory record of each kind, as a block.
#[tactic(auto, using(crate::proofs::Bodies::record_codec))]
pub fn record_codec()
    ensures { RecordCodec }
{}

/// The head of a log.
#[tactic(auto, using(crate::proofs::Bodies::log_head_codec))]
pub fn log_head_codec()
    ensures { LogHeadCodec }
{}

/// Each spelling is a block.
#[tactic(auto, using(crate::proofs::Sizes::are_blocks))]
pub fn spellings_are_blocks()
    ensures { AreBlocks }
{}

/// How much a status record and a directory record hold at most.
#[tactic(auto, using(crate::proofs::Sizes::are_small))]
pub fn records_are_small()
    ensures { AreSmall }
{}
