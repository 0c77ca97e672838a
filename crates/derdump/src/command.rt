//! The commands of the program.
ghost use Rattle.std.specs.Prelude.{◌≡◌, IfSome, None};
ghost use Rattle.derdump.specs.Words.{Names, rules_of};

use der_parser::Rules;

/// What is done with the elements of the input.
#[derive(Clone, Copy)]
pub enum Command {
    /// Prints the text of each element, read by BER.
    Ber,
    /// Prints the text of each element, read by DER.
    Der,
    /// Writes the encoding of each element, read by BER.
    Canon,
}

impl Command {
    /// The rules by which the input is read.
    pub fn rules(self) -> Rules
        ensures { result ≡ rules_of self }
    {
        match self {
            Command::Ber | Command::Canon => Rules::Ber,
            Command::Der => Rules::Der,
        }
    }
}

/// The command with this name.
pub fn named_command(word: &str) -> Option<Command>
    ensures some { IfSome result (λ command. Names word.now command) }
    ensures none { result ≡ None → (command : Command) → ¬ Names word.now command }
{
    match word {
        "ber" => Some(Command::Ber),
        "der" => Some(Command::Der),
        "canon" => Some(Command::Canon),
        _ => None,
    }
}
