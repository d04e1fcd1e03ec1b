//! What holds of lines, commands and sessions, over the definitions alone.
ghost use Rattle.debugger_meaning.specs.DebuggerLaws.{CommandsAreSaid, CommandsReadBack, SessionsStand, WordsAreRead};

/// Every command whose numbers are in range has a line that is read as that command, so that each can be typed.
pub fn commands_read_back()
    ensures { CommandsReadBack }
{}

/// The words that are read from a line are those that it has by the definition of words between spaces, and no others.
pub fn words_are_read()
    ensures { WordsAreRead }
{}

/// A line is read as a command if and only if its words spell that command: the reader takes no other spelling, and
/// misses none.
pub fn commands_are_said()
    ensures { CommandsAreSaid }
{}

/// After any commands, ahead and back, answered or refused, a session's board is the one with which it began, some
/// clocks later: the debugger shows only what the program itself comes to.
pub fn sessions_stand()
    ensures { SessionsStand }
{}
