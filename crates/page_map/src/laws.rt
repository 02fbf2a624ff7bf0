//! What pages that show a map say. The law is the contract of a function that does nothing.

ghost use Rattle.page_map.specs.Contents.{ShownIsContent};

/// Pages that show a map whose records are those of the formats have these records as their
/// content.
#[tactic(auto, using(crate::proofs::Showing::shown_is_content))]
pub fn shown_is_content()
    ensures { ShownIsContent }
{}
