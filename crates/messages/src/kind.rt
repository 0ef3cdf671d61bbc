ghost use Rattle.std.specs.Prelude.{◌≡◌};
ghost use Rattle.messages.specs.Messages.{type_read};

/// The type of a message: FX cancels, FM moves, SC creates a slot.
#[derive(Clone, Copy, Debug, PartialEq, Eq)]
pub enum MessageType {
    Fx,
    Fm,
    Sc,
}

impl MessageType {
    /// The type that a word names.
    pub(crate) fn read(word: &[u8]) -> Option<MessageType>
        ensures { result ≡ type_read word.now }
    {
        match word {
            b"FX" => Some(MessageType::Fx),
            b"FM" => Some(MessageType::Fm),
            b"SC" => Some(MessageType::Sc),
            _ => None,
        }
    }
}
