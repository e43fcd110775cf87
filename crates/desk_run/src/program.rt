//! The program `desk`, as `command_run` speaks of programs.
use command_run::programs::Program;
use desk_words::requests::DeskRequest;
use desk_words::texts::desk_usage_text;

/// The program `desk`: which command each request asks for, and its usage line.
pub struct Desk;

impl Program for Desk {
    ghost use Rattle.desk_run.specs.Requests.{desk_command_of};
    ghost use Rattle.desk_words.specs.Texts.{desk_usage_line};

    type Request = DeskRequest;

    ghost command = { desk_command_of };

    ghost usage = { desk_usage_line };

    fn usage_line() -> &'static [u8] {
        desk_usage_text()
    }
}
