//! What a program is asked: the words of its command line, which are its arguments.
ghost use Rattle.std.specs.Prelude.{◌≡◌, ℕ, List, Option, None, IsSome, IfOk, IfErr, drop, map};
ghost use Rattle.std.specs.IoError.{error_kind};
ghost use Rattle.std.specs.String.{string_bytes};
ghost use Rattle.std.specs.declared.io.ErrorKind.TheVariants.{OutOfMemory};
ghost use Rattle.program_ends.specs.CommandLines.{AreKnownWords, words_of_arguments};

use audit_base::faults::NoMemory;
use std::env;
use std::io::{self, ErrorKind};
use std::rt::Env;

/// A command line, whose arguments are known or not.
pub trait CommandLine {
    // The arguments, the first of which is the program's name, where they are known.
    ghost known_arguments: { Self → Option (List (List ℕ)) };

    /// The arguments, the first of which is the program's name. An error whose kind is not
    /// `OutOfMemory` says that they are not text, which known arguments are.
    fn arguments(&self) -> io::Result<Vec<String>>
        ensures given { IfOk result (λ given.
            AreKnownWords (known_arguments self.now) (map string_bytes given.items)) }
        ensures cause { IfErr result (λ error.
            IsSome (known_arguments self.now) → error_kind error ≡ OutOfMemory) };
}

/// The command line of the runtime. Nothing is known of its arguments.
impl<R: Env + AllocGlobal> CommandLine for R {
    ghost known_arguments = { λ _. None };

    fn arguments(&self) -> io::Result<Vec<String>> {
        Ok(env::args(self)?.collect(self.alloc())?)
    }
}

/// The words of a command line: its arguments without the first, which is the program's name.
/// Takes no memory.
fn words_behind(arguments: Vec<String>) -> Vec<String>
    ensures { result.items ≡ drop 1 arguments.items }
{
    let mut words = arguments;
    if !words.is_empty() {
        let _name = words.remove(0);
    }
    words
}

/// The words of a command line, without the program's name. A command line that is not text is a
/// faulty one, and gives no words, which no program takes. `NoMemory` comes only where memory ran
/// out.
pub fn words_of<L: CommandLine + AllocGlobal>(line: &L) -> Result<Vec<String>, NoMemory>
    ensures { IfOk result (λ words. AreKnownWords
        (words_of_arguments (L.known_arguments line.now)) (map string_bytes words.items)) }
{
    match line.arguments() {
        Ok(arguments) => Ok(words_behind(arguments)),
        Err(error) if error.kind() == ErrorKind::OutOfMemory => Err(NoMemory),
        Err(_) => Ok(Vec::new(line.alloc())),
    }
}
