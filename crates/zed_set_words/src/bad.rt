//! Wrong words.
ghost use Rattle.std.specs.Prelude.{◌≡◌};
ghost use Rattle.zed_set_words.specs.Texts.{text_of};

/// What may be in the place of a wrong or missing word.
#[derive(Clone, Copy, Debug)]
pub enum Expected {
    Thing,
    Register,
    Property,
    Field,
    TicksWord,
    PassedWord,
    BoardWord,
    NameWord,
    LimitWord,
    ShotsWord,
    StartPart,
    AtPart,
    UnderPart,
    Key,
    FlagNumber,
    Side,
    Byte,
    Rank,
    Number,
    YesOrNo,
    BoardPlace,
    BoardOrNone,
    StatPlace,
    StatNumber,
    OtherStat,
    StatOrNone,
    TextOrNone,
    Element,
    Colour,
    Target,
    ShortText,
    NameText,
    MessageText,
    End,
}

impl Expected {
    /// What is expected, in words for the author.
    pub fn text(self) -> &'static str
        ensures { result.now ≡ text_of self }
    {
        match self {
            Expected::Thing => "world, board or stat",
            Expected::Register =>
                "a register of the world: name, start-board, ammo, gems, health, torches, \
                torch ticks, energizer ticks, score, time passed, hundredths, key, flag or saved",
            Expected::Property =>
                "a property of a board: name, message, dark, re-enter, max shots, start, exit, \
                time limit or rank",
            Expected::Field =>
                "a field of a stat: at, x, y, p1, p2, p3, leads-to, step, cycle, position, \
                follower, leader, follows, text, shares or under",
            Expected::TicksWord => "ticks",
            Expected::PassedWord => "passed",
            Expected::BoardWord => "board",
            Expected::NameWord => "name",
            Expected::LimitWord => "limit",
            Expected::ShotsWord => "shots",
            Expected::StartPart => "x, y, or a column from 0 to 255",
            Expected::AtPart => "x or y",
            Expected::UnderPart => "element or colour",
            Expected::Key => "blue, green, cyan, red, purple, yellow or white",
            Expected::FlagNumber => "a number from 1 to 10",
            Expected::Side => "north, south, west or east",
            Expected::Byte => "a number from 0 to 255",
            Expected::Rank => "a number from 0 to 65535",
            Expected::Number => "a number from -32768 to 32767",
            Expected::YesOrNo => "yes or no",
            Expected::BoardPlace => "the number or the name of a board",
            Expected::BoardOrNone => "the number or the name of a board, or none",
            Expected::StatPlace => "the number of a board, or the name of a stat",
            Expected::StatNumber => "the number of a stat",
            Expected::OtherStat => "the name of a stat, or its number where the first stat has one",
            Expected::StatOrNone =>
                "the name of a stat, its number where the first stat has one, or none",
            Expected::TextOrNone => "the name of a text, or none",
            Expected::Element => "the word of an element, or a number from 0 to 255",
            Expected::Colour => "0x and two digits, or a number from 0 to 255",
            Expected::Target => "a number from 0 to 255, or board",
            Expected::ShortText => "a string of at most 20 characters of code page 437",
            Expected::NameText => "a string of at most 50 characters of code page 437",
            Expected::MessageText => "a string of at most 58 characters of code page 437",
            Expected::End => "the end of the words",
        }
    }
}

/// The first wrong word.
#[derive(Clone, Copy, Debug)]
pub struct BadWord {
    /// Which word it is, counted from 0. If the words end too early, it is how many there are.
    pub at: usize,
    /// What may be there.
    pub expected: Expected,
}
