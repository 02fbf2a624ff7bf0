// Laws of the two languages. Each function has an empty body: its contract is the law.
ghost use Rattle.asm_world.specs.FirstWord.{StatementsAreReadAlone, VerbsAreReadAlone};
ghost use Rattle.asm_world.specs.Grammar.{StatementsAreDecided, StatementsSpell};
ghost use Rattle.asm_world.specs.GrammarRows.{RefusedRows, WritingRows};
ghost use Rattle.asm_world.specs.Language.{OneCommand, CommandsAreFound, UnreadableAtLongestFront};
ghost use Rattle.asm_world.specs.StatementLaws.{OneStatement, RefusedAtLongestFront, WrittenIsSaid, SaidIsWritten};
ghost use Rattle.asm_world.specs.VerbRows.{VerbRows};
ghost use Rattle.asm_world.specs.Verbs.{VerbsAreDecided, VerbsSpell};

/// The next word decides at each place of a statement.
pub fn statements_are_decided()
    ensures { StatementsAreDecided }
{}

/// Each word of a statement has a spelling.
pub fn statements_spell()
    ensures { StatementsSpell }
{}

/// No text says two statements.
pub fn one_statement()
    ensures { OneStatement }
{}

/// Where a text is refused its longest front that begins a statement ends.
pub fn refused_at_longest_front()
    ensures { RefusedAtLongestFront }
{}

/// What is written of a statement says this statement.
pub fn written_is_said()
    ensures { WrittenIsSaid }
{}

/// Each statement that some text says has a canonical text, which says it.
pub fn said_is_written()
    ensures { SaidIsWritten }
{}

/// Texts that are refused, and where.
pub fn refused_rows()
    ensures { RefusedRows }
{}

/// Statements as they are written.
pub fn writing_rows()
    ensures { WritingRows }
{}

/// The next word decides at each place of a verb.
pub fn verbs_are_decided()
    ensures { VerbsAreDecided }
{}

/// Each word of a verb has a spelling.
pub fn verbs_spell()
    ensures { VerbsSpell }
{}

/// Lines, and what they ask for.
pub fn verb_rows()
    ensures { VerbRows }
{}

/// No text asks for two commands.
pub fn one_command()
    ensures { OneCommand }
{}

/// A command is found exactly where the text asks for it.
pub fn commands_are_found()
    ensures { CommandsAreFound }
{}

/// Where a text asks for nothing its longest front that begins a command ends.
pub fn unreadable_at_longest_front()
    ensures { UnreadableAtLongestFront }
{}

/// A text whose first word is CREATE, ALTER or DROP asks for what it says as a statement.
pub fn statements_are_read_alone()
    ensures { StatementsAreReadAlone }
{}

/// Any other text asks for what it says as a verb, and where it is none a front of these words
/// counts.
pub fn verbs_are_read_alone()
    ensures { VerbsAreReadAlone }
{}
