// The commands, and what can be wrong with their use.

// The commands, by their numbers in the table of words. Two are options, and the last stands for a word of ends of lines alone, which is taken as `help`.
#[derive(Clone, Copy, PartialEq, Eq)]
pub enum Command {
    Try = 1,
    Translate = 2,
    Check = 3,
    List = 4,
    Run = 5,
    Events = 6,
    Compare = 7,
    Words = 8,
    Help = 9,
    ShortHelp = 10,
    LongHelp = 11,
    Version = 12,
    Force = 13,
    Texts = 14,
    Blank = 15,
}

// What is wrong with a word or a file that was given, by its number in the table of words.
#[derive(Clone, Copy)]
pub enum Wrong {
    IsRead = 21,
    NotPlain = 22,
    NoImage = 23,
    NoRecords = 24,
    NoEvents = 25,
    NoCommand = 26,
    NoTurns = 27,
    LongFile = 28,
    NoOption = 29,
    LeftOver = 30,
    NoHelp = 31,
    PageLost = 32,
    IsThere = 33,
    Both = 34,
}

impl Command {
    const ALL: [Command; 15] = [
        Command::Try,
        Command::Translate,
        Command::Check,
        Command::List,
        Command::Run,
        Command::Events,
        Command::Compare,
        Command::Words,
        Command::Help,
        Command::ShortHelp,
        Command::LongHelp,
        Command::Version,
        Command::Force,
        Command::Texts,
        Command::Blank,
    ];

    pub fn named(word: &[u8]) -> Option<Command> {
        let number = words::command_for(word)?;
        let mut all = Command::ALL.into_iter();
        all.find(|command| *command as u32 == number)
    }

    // Whether it takes so many arguments, with the program's name and its own among them.
    pub fn takes(self, count: usize) -> bool {
        match self {
            Command::Try => matches!(count, 3..=5),
            Command::Translate => count == 4,
            Command::Check => count == 3,
            Command::List => matches!(count, 3..=4),
            Command::Run => matches!(count, 5..=6),
            Command::Events => count == 4,
            Command::Compare => matches!(count, 4..=5),
            Command::Texts => matches!(count, 5..=6),
            Command::Words => count == 2,
            Command::Version => count == 2,
            _ => count <= 3,
        }
    }

    // Whether it may write over a file.
    pub fn is_writing(self) -> bool {
        match self {
            Command::Translate | Command::List | Command::Run => true,
            Command::Events | Command::Compare => true,
            _ => false,
        }
    }
}
