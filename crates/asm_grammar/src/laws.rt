//! What holds of every grammar.

ghost use Rattle.asm_grammar.specs.Laws.{ReadsOnlyTexts, ReadsEachText, SaysOneThing, ReadsWholeTexts, NoTextGoesFurther, ReadsWhatIsWritten, RefusesAtLongestFront, ReadsWholeLines, RefusesLinesAtLongestFront, RefusesAtTheLater};
ghost use Rattle.asm_grammar.specs.Kinds.{TextsAreAsSaid, NumbersAreAsSaid};

/// What reading gives, the grammar has.
pub fn reads_only_texts()
    ensures { ReadsOnlyTexts }
{}

/// What the grammar has, reading gives.
pub fn reads_each_text()
    ensures { ReadsEachText }
{}

/// No text says two things.
pub fn says_one_thing()
    ensures { SaysOneThing }
{}

/// A whole text is read exactly where it is one of the grammar, with what it says.
pub fn reads_whole_texts()
    ensures { ReadsWholeTexts }
{}

/// Where a text is refused, no text of the grammar has more of it at its beginning than the answer
/// says.
pub fn no_text_goes_further()
    ensures { NoTextGoesFurther }
{}

/// The canonical text of a value is read as this value.
pub fn reads_what_is_written()
    ensures { ReadsWhatIsWritten }
{}

/// A refusal says how long the longest front of the text is that begins a text of the grammar.
pub fn refuses_at_longest_front()
    ensures { RefusesAtLongestFront }
{}

/// A whole line is read exactly where it is one of the grammar, with what it says.
pub fn reads_whole_lines()
    ensures { ReadsWholeLines }
{}

/// A refusal says how long the longest front of a line is that begins a line of the grammar.
pub fn refuses_lines_at_longest_front()
    ensures { RefusesLinesAtLongestFront }
{}

/// Reading that begins with fewer bytes left gives the same values, and refuses at the later of the
/// two places.
pub fn refuses_at_the_later()
    ensures { RefusesAtTheLater }
{}

/// Each kind of text of a verb has the words that it is to have: names, paths by their parts, and
/// paths outside.
pub fn texts_are_as_said()
    ensures { TextsAreAsSaid }
{}

/// The numbers and sizes of verbs are those of statements.
pub fn numbers_are_as_said()
    ensures { NumbersAreAsSaid }
{}
