// The definition of the command line at worked words.
ghost use Rattle.command_line.specs.Rows.{WordRows};

/// The words of the rows are read and refused as they say.
pub fn word_rows()
    ensures { WordRows }
{}
