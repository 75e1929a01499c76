//! The words that a server that runs is told, and its replies.

ghost use Rattle.std.specs.Prelude.{◌≡◌, ◌++◌, IfSome, Some, codes};
ghost use Rattle.iiif_services.specs.Commands.{IsReply, command_named, word_of};

/// A command to a server that runs.
#[derive(Clone, Copy, Debug, PartialEq, Eq)]
pub enum Command {
    /// Tell what the server does.
    Status,
    /// Take no more connections, answer the calls that came, and end.
    Drain,
    /// Read the list of images again, and serve that.
    Reload,
    /// Drain within a few seconds.
    Stop,
}

impl Command {
    /// Returns the command of a word, if it is one.
    pub fn named(word: &[u8]) -> Option<Command>
        ensures { result ≡ command_named word.now }
    {
        if word == b"status".as_slice() {
            Some(Command::Status)
        } else if word == b"drain".as_slice() {
            Some(Command::Drain)
        } else if word == b"reload".as_slice() {
            Some(Command::Reload)
        } else if word == b"stop".as_slice() {
            Some(Command::Stop)
        } else {
            None
        }
    }

    /// Returns the line of the command: its word, and a line feed.
    pub fn line(self) -> &'static [u8]
        ensures line { result.now ≡ word_of self ++ codes "\n" }
        ensures named { command_named (word_of self) ≡ Some self }
    {
        match self {
            Command::Status => b"status\n",
            Command::Drain => b"drain\n",
            Command::Reload => b"reload\n",
            Command::Stop => b"stop\n",
        }
    }
}

/// Splits a reply into its status and its text. None of what is no reply.
pub fn read_reply<'a>(reply: &'a [u8]) -> Option<(u8, &'a [u8])>
    ensures { IfSome result (λ r. IsReply reply.now r.0 r.1.now) }
{
    let (digit, text) = reply.split_first()?;
    match *digit {
        b'0' => Some((0, text)),
        b'1' => Some((1, text)),
        b'2' => Some((2, text)),
        _ => None,
    }
}
