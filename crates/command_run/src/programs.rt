//! A program that runs commands, as what its words may ask for.
ghost use Rattle.std.specs.Prelude.{◌≡◌, ℕ, List};
ghost use Rattle.command_run.specs.Commands.{Command};

/// A program that is run by words, each of which asks for a command or for nothing. What is proved
/// of commands is proved of those of every program, and a program takes it by its own name.
pub trait Program {
    /// What well-formed words ask for.
    type Request;

    // The command that a request asks for.
    ghost command: { Self.Request → Command };

    // The line that says how the command line is used.
    ghost usage: { List ℕ };

    /// The line that says how the command line is used.
    fn usage_line() -> &'static [u8]
        ensures { result.now ≡ usage };
}
