//! What words may ask for.
use zed_set_words::BoardPlace;
use zed_types::Stamp;

/// What a command does where work would be lost: `open` where a world file was drawn in and not
/// taken, and `take` where most boards are gone.
#[derive(Clone, Copy)]
pub enum Forcing {
    /// It refuses.
    Careful,
    /// It does it all the same: `--force`.
    Forced,
}

/// How a picture of a board is written.
#[derive(Clone, Copy)]
pub enum Form {
    /// In colours, for a terminal.
    Coloured,
    /// As plain text: `--plain`.
    Plain,
    /// As plain text with the numbers of columns and rows: `--ruler`.
    Ruled,
    /// As an SVG picture: `--svg`.
    Svg,
}

/// How much of the line of a world is printed.
#[derive(Clone, Copy)]
pub enum Length {
    /// Its bytes are left out.
    Short,
    /// All of it: `--full`.
    Full,
}

/// Whether a playtest goes on over boards.
#[derive(Clone, Copy)]
pub enum Going {
    /// It is of one board.
    Stays,
    /// It goes on on the board for which the player leaves: `--boards`.
    On,
}

/// Whether `lint` or `compare` fails if it finds something.
#[derive(Clone, Copy)]
pub enum Strictness {
    /// It doesn't.
    Lenient,
    /// It does: `--strict`.
    Strict,
}

/// What `list` prints.
#[derive(Clone, Copy)]
pub enum Listing {
    /// Its boards.
    Boards,
    /// The stats of the board of this number.
    Stats(u16),
    /// The program of a stat: the number of its board, and its own.
    Program(u16, u16),
}

/// Whether `undo` writes what it does.
#[derive(Clone, Copy)]
pub enum Trial {
    /// It does.
    Real,
    /// It only lists what would go: `--dry-run`.
    Dry,
}

/// What `undo` does with what other authors built on the edits.
#[derive(Clone, Copy)]
pub enum Others {
    /// It refuses where there is some.
    Spared,
    /// It undoes that too: `--with-others`.
    Included,
}

/// Which edits are meant: those that pass all that is given.
#[derive(Clone, Copy)]
pub struct Filter {
    pub board: Option<BoardPlace>,
    /// The number of a board, then X from 1 to 60 and Y from 1 to 25.
    pub cell: Option<(u16, u16, u16)>,
    pub replica: Option<u16>,
    /// The first stamp of those that are meant.
    pub since: Option<Stamp>,
    /// The last one.
    pub until: Option<Stamp>,
}

/// What is to be done.
#[derive(Drop)]
pub enum Command<'a> {
    /// Write the world file of an edit file, to draw in with another editor.
    Open {
        /// The stamp of the last edit that counts; without it all count.
        until: Option<Stamp>,
        forcing: Forcing,
        file: &'a str,
        world: &'a str,
    },
    /// Add what was drawn in a world file to an edit file, as edits of an author.
    Take {
        /// The edit file of the world before it was drawn in.
        base: Option<&'a str>,
        forcing: Forcing,
        file: &'a str,
        replica: u16,
        world: &'a str,
    },
    /// List the edits of files: those that pass all given filters.
    Log {
        length: Length,
        filter: Filter,
        files: Vec<&'a str>,
    },
    /// List the world of edit files.
    List {
        listing: Listing,
        files: Vec<&'a str>,
    },
    /// Show the board of this number of the world of edit files.
    Show {
        form: Form,
        board: u16,
        files: Vec<&'a str>,
    },
    /// Print a page with all boards of the world of edit files.
    Page {
        files: Vec<&'a str>,
    },
    /// Play a board of the world of edit files at a terminal.
    Play {
        going: Going,
        /// How many rows the terminal has.
        rows: Option<u16>,
        /// The file that keeps words of chance; its words are used first.
        words: Option<&'a str>,
        /// The file that keeps keys; its keys are played first.
        keys: Option<&'a str>,
        board: u16,
        files: Vec<&'a str>,
    },
    /// List what is wrong in the world of edit files.
    Lint {
        strictness: Strictness,
        files: Vec<&'a str>,
    },
    /// Tell what a merge of two edit files overrides.
    Compare {
        strictness: Strictness,
        mine: &'a str,
        theirs: &'a str,
    },
    /// Undo chosen edits of an edit file by new edits of an author: those that pass all that is given.
    Undo {
        trial: Trial,
        others: Others,
        file: &'a str,
        replica: u16,
        /// The edits of these stamps, or of any, if there is none.
        stamps: Vec<Stamp>,
        filter: Filter,
        /// The last so many of those that pass all others.
        last: Option<u16>,
    },
    /// Undo the edits that one edit file has and another one has not, by new edits of an author.
    UndoPull {
        trial: Trial,
        others: Others,
        file: &'a str,
        replica: u16,
        new: &'a str,
        old: &'a str,
    },
    /// Set what these words say in an edit file, as edits of an author.
    Set {
        file: &'a str,
        replica: u16,
        words: Vec<&'a str>,
    },
    /// Print the program of a stat in the world of edit files.
    Program {
        board: u16,
        stat: u16,
        files: Vec<&'a str>,
    },
    /// Print all programs in the world of edit files.
    Programs {
        files: Vec<&'a str>,
    },
    /// Make the text of a file the program of a stat in an edit file, as edits of an author.
    SetProgram {
        file: &'a str,
        replica: u16,
        board: u16,
        stat: u16,
        text: &'a str,
    },
}
