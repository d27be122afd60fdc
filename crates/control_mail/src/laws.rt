//! Laws of control messages. A call of a law gives the caller's proof what the law says.
ghost use Rattle.std.specs.Prelude.{ℕ, ◌≡◌, ◌++◌};
ghost use Rattle.topology.specs.Lists.{Begins};
ghost use Rattle.control_mail.specs.Acts.{MailActs};
ghost use Rattle.control_mail.specs.Readings.{letters, is_next, next_letter};
ghost use Rattle.control_mail.specs.Keeping.{IsLowest};

/// The next message is the lowest one that was never delivered and whose addressee is not crashed. If there is no next
/// message, no message is like that.
pub fn the_next_message_is_the_lowest()
    ensures { (acts : MailActs) → IsLowest (is_next acts) (next_letter acts) }
{}

/// Messages are never removed, and keep their numbers.
pub fn messages_stay()
    ensures { (newer acts : MailActs) → Begins (letters acts) (letters (newer ++ acts)) }
{}
