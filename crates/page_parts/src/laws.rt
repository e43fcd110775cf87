//! Laws of pages, apart from the code. Nothing is computed here: a law is a function's contract, so
//! that the check proves it.
ghost use Rattle.page_parts.specs.Laws.{ShellReadsCommand};

/// A shell reads a command that a page shows as the words that it was made of, whatever bytes these
/// have, where each has one.
pub fn shell_reads_command()
    ensures { ShellReadsCommand }
{}
