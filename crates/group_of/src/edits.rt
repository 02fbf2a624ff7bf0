//! Edits of names, templates and attributes, in the catalog and in the world. Each function does
//! nothing; its contract is the law.
ghost use Rattle.group_of.specs.Edits.{AttributeIsWorlds, AttributeLeadsOn, AttributeRefusalIsWorlds, TemplateEditIsWorlds, TemplateEditLeadsOn, TemplateRefusalIsWorlds, TreeEditIsWorlds, TreeEditKeepsCells, TreeEditLeadsOn, TreeRefusalIsWorlds};

/// The tables to which the plan of an edit leads are the world's group after the edit, with the
/// same cells.
pub fn edits_are_the_worlds()
    ensures tree { TreeEditIsWorlds }
    ensures cells { TreeEditKeepsCells }
    ensures templates { TemplateEditIsWorlds }
    ensures attributes { AttributeIsWorlds }
{}

/// Where the tables describe a group, the world does the edit of the group that a plan was made of,
/// and the tables to which the plan leads describe the group after it.
pub fn edits_lead_on()
    ensures tree { TreeEditLeadsOn }
    ensures templates { TemplateEditLeadsOn }
    ensures attributes { AttributeLeadsOn }
{}

/// What refuses the plan of an edit is what the world refuses the edit by, or want of memory, or
/// want of a block for an edit of names that the world does.
pub fn refusals_of_edits_are_the_worlds()
    ensures tree { TreeRefusalIsWorlds }
    ensures templates { TemplateRefusalIsWorlds }
    ensures attributes { AttributeRefusalIsWorlds }
{}
