//! Which words ask for help, and for the version.
ghost use Rattle.zed_tool_words.specs.Laws.{HelpAsksHelp, HelpOfCommands, VersionAsksVersion};

/// `--help` asks for help, alone or after the name of a command.
pub fn help_words()
    ensures alone { HelpAsksHelp }
    ensures commands { HelpOfCommands }
{}

/// `--version` asks for the version.
pub fn version_words()
    ensures { VersionAsksVersion }
{}
