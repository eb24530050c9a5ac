// What the first word of the command line asks for.
ghost use Rattle.std.specs.Prelude.{◌≡◌};
ghost use Rattle.commands.specs.Commands.{command_of, words_of};

use texts::same_text;

#[derive(Clone, Copy)]
pub enum Command {
    Check,
    Get,
    Put,
    Create,
}

// Kept by hand: a match on the bytes has 23 ways, each with a goal over `same_text`, which goes by recursion.
#[tactic(auto, unfolding(crate::specs::Commands::command_of))]
pub fn command_of(word: &[u8]) -> Option<Command>
    ensures { result ≡ command_of word.now }
{
    if same_text(word, b"check") {
        Some(Command::Check)
    } else if same_text(word, b"get") {
        Some(Command::Get)
    } else if same_text(word, b"put") {
        Some(Command::Put)
    } else if same_text(word, b"create") {
        Some(Command::Create)
    } else {
        None
    }
}

// How many words the command line has, with the command itself.
pub fn words_of(command: Command) -> usize
    ensures { result ≡ words_of command }
{
    match command {
        Command::Check => 2,
        Command::Get => 3,
        Command::Put => 4,
        Command::Create => 3,
    }
}
