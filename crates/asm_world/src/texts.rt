// Worked texts. Each function has an empty body: its contract is computed.
ghost use Rattle.asm_world.specs.GeneratorRows.{GeneratorRows};
ghost use Rattle.asm_world.specs.Below.{Below};
ghost use Rattle.asm_world.specs.SettingRows.{PathRows, NewNameRows, AttributeRows, CauseRows};
ghost use Rattle.asm_world.specs.TextRows.{TextRows, ReportRows, RefusedReplyRows};

/// Replies and event lines as they are printed.
pub fn text_rows()
    ensures { TextRows }
{}

/// Lines of reports as they are printed.
pub fn report_rows()
    ensures { ReportRows }
{}

/// The generator's script.
pub fn generator_rows()
    ensures { GeneratorRows }
{}

/// Paths and patterns as they are read.
pub fn path_rows()
    ensures { PathRows }
{}

/// Names of disks and of files.
pub fn name_rows()
    ensures { NewNameRows }
{}

/// Values of attributes, and those of a creation.
pub fn attribute_rows()
    ensures { AttributeRows }
{}

/// Refusals that the world decides.
pub fn cause_rows()
    ensures { (below : Below) → CauseRows below }
{}

/// Each refusal as it is printed.
pub fn refusal_rows()
    ensures { RefusedReplyRows }
{}
