//! The words that the program knows.

ghost use Rattle.std.specs.Prelude.{◌≡◌, [], ◌∷◌, IfSome, IfNone, map, string_bytes};
ghost use Rattle.rpkibasic.specs.Command.{word_of};
ghost use Rattle.rpkibasic.specs.declared.command.Command.{Command as AnyCommand};

/// What a word asks of the input.
#[derive(Clone, Copy, Debug, PartialEq, Eq)]
pub enum Command {
    /// Signed data of the RPKI, written again.
    Again,
    /// The slice that is signed.
    Data,
    /// The identifier of a public key.
    Key,
    /// The parts of a URI.
    Uri,
    /// Extensions, written again.
    Ext,
    /// Whether a name is strict.
    Name,
}

impl Command {
    /// The command that the words name: one word, and one that the program knows.
    pub fn of(words: &[String]) -> Option<Command>
        ensures named { IfSome result (λ command. map string_bytes words.now ≡ word_of command ∷ []) }
        ensures none { IfNone result ((command : AnyCommand) → map string_bytes words.now ≡ word_of command ∷ [] → ⊥) }
    {
        match words {
            [word] if word.as_str() == "again" => Some(Command::Again),
            [word] if word.as_str() == "data" => Some(Command::Data),
            [word] if word.as_str() == "key" => Some(Command::Key),
            [word] if word.as_str() == "uri" => Some(Command::Uri),
            [word] if word.as_str() == "ext" => Some(Command::Ext),
            [word] if word.as_str() == "name" => Some(Command::Name),
            _ => None,
        }
    }
}
