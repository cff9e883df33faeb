ghost use Rattle.std.specs.Prelude.{◌≡◌};
ghost use Rattle.terminal_advice.specs.Advice.{general_of, reason_of, remedy_of};

use crate::refused::{refusal_reason, refusal_remedy};
use office_rules::Refusal;

/// What is said at a terminal of a line by which the program refuses (`docs/COMMANDS.md`).
#[derive(Clone, Copy, Debug, PartialEq, Eq)]
pub enum Advice {
    /// The office refused.
    Refused(Refusal),
    Amount,
    Clock,
    Value,
    Place,
    File,
    Net,
    NotAnOffice,
    OpenStore,
    OpenMemory,
    DeskStopped,
    RowHeader,
    RowColumns,
    RowField,
    RowTooMany,
    RowDiffers,
    RowNoTariff,
    RowDayPast,
    WordTransform,
    WordAt,
    WordWait,
    WordDesk,
    WordListen,
    WordOperator,
    WordRef,
    WordMeter,
    WordBase,
    WordKey,
    WordTariff,
    WordFrom,
    WordTender,
    WordRows,
    WordPaper,
    WordNumber,
    WordAct,
    WordShown,
    WordListed,
    WordAfter,
    WordJson,
    LacksMeter,
    LacksOrder,
    WordSteps,
    WordPrior,
    WordAmount,
    WordSync,
    WordConnections,
    NoText,
    FileMissing,
    FileBarred,
    FileFolder,
    FileTooLong,
    NetTaken,
    NetNotHere,
    NetNobody,
    NetSilent,
    NetRubbish,
    ShutInUse,
    ShutByVend,
    ShutByOther,
    ShutBarred,
    ShutNoFolder,
    ShutSpecial,
    ShutFolder,
    ShutNoDatabase,
    ShutLinked,
    ShutJournal,
    ShutVacuum,
    ShutTrigger,
    ShutVirtual,
    ShutIndex,
    ShutFull,
    StoreFull,
    ColumnMeter,
    ColumnBase,
    ColumnTariff,
    ColumnKey,
    ColumnName,
    ColumnSteps,
    ColumnFrom,
}

impl Advice {
    /// Why it was refused.
    pub fn reason(self) -> &'static str
        ensures { result.now ≡ reason_of self }
    {
        match self {
            Advice::Refused(refusal) => refusal_reason(refusal),
            Advice::Amount => "No token carries this amount, or it is 0.",
            Advice::Clock =>
                "The clock of the office's computer is outside the years 1993 to 2099.",
            Advice::Value => "A value is outside its rule.",
            Advice::Place => "The command needs one office: a file, or a running desk.",
            Advice::File => "The file cannot be read.",
            Advice::Net => "The connection failed, or no whole answer came.",
            Advice::NotAnOffice => {
                "Another program or a newer vend made the file, or its tables were changed from outside."
            }
            Advice::OpenStore => {
                "The file is no database, is in use, cannot be read or written, or was changed from outside."
            }
            Advice::OpenMemory => "The office's computer is out of memory. Nothing was done.",
            Advice::DeskStopped =>
                "The office's disk failed or is full, or a row is damaged, so the desk stopped.",
            Advice::RowHeader => "The first line has to be the names of the columns.",
            Advice::RowColumns => "The row has too many fields or too few.",
            Advice::RowField => "A field of the row is outside its rule.",
            Advice::RowTooMany => "A file has at most 10000 rows.",
            Advice::RowDiffers => "Something else is stored under the row's name, number or day.",
            Advice::RowNoTariff => "There is no tariff of the name in the row.",
            Advice::RowDayPast => "The day of the row has begun (UTC).",
            Advice::WordTransform => "--transform has to be plain or demo.",
            Advice::WordAt => {
                "--at has to be Unix seconds from 725846400 to 4102444799 (1993 to 2099)."
            }
            Advice::WordWait => "--wait has to be a number from 0 to 3600.",
            Advice::WordDesk => "--desk has to be four numbers and a port, as 127.0.0.1:8080.",
            Advice::WordListen => "--listen has to be four numbers and a port, as 127.0.0.1:8080.",
            Advice::WordOperator => "--operator has to be 1 to 16 ASCII letters or digits.",
            Advice::WordRef => "--ref has to be 1 to 32 ASCII letters, digits or hyphens.",
            Advice::WordMeter => {
                "--meter has to be eleven digits, of which the last is the check digit."
            }
            Advice::WordBase => "--base has to be 1993, 2014 or 2035.",
            Advice::WordKey => "--key has to be sixteen lower-case hexadecimal digits.",
            Advice::WordTariff => "--tariff has to be 1 to 32 ASCII letters, digits or hyphens.",
            Advice::WordFrom => "--from has to be a day as 2026-07-01.",
            Advice::WordTender => "The tender has to be whole cents from 1 to 100000000.",
            Advice::WordRows => "The rows of a file have to be tariffs or meters.",
            Advice::WordPaper => "--kind has to be shift, receipt, totals or sales.",
            Advice::WordNumber => "--number has to be a number from 1 to 1000000000.",
            Advice::WordAct => "A shift can be opened or closed.",
            Advice::WordShown => "Only a meter, a sale and a last receipt can be shown.",
            Advice::WordListed => "Only tariffs, meters, shifts and sales can be listed.",
            Advice::WordAfter => {
                "--after has to be a whole key: a name, a meter's number, or 0 to 1000000000."
            }
            Advice::WordJson => "A receipt is no JSON.",
            Advice::LacksMeter => "Here --meter is needed.",
            Advice::LacksOrder => "A sale is shown by --operator and --ref.",
            Advice::WordSteps => {
                "The steps have to be as 500:10;:15, one to eight, with the last open."
            }
            Advice::WordPrior =>
                "The tenths of a kWh bought before have to be from 0 to 100000000000000000.",
            Advice::WordAmount => {
                "Each amount has to be tenths of a kWh, a number below 4294967296."
            }
            Advice::WordSync => "--sync has to be twice or full.",
            Advice::WordConnections => "--connections has to be a number from 1 to 1000000.",
            Advice::NoText => "An argument is not UTF-8 text.",
            Advice::FileMissing => "The file does not exist.",
            Advice::FileBarred => "You have no right to read the file.",
            Advice::FileFolder => "It is a folder.",
            Advice::FileTooLong => "With --desk a file has at most 1048576 bytes.",
            Advice::NetTaken => "Another program listens at this address.",
            Advice::NetNotHere => "The desk cannot listen at this address.",
            Advice::NetNobody => "Nobody listens at this address.",
            Advice::NetSilent => "No whole answer came in time. The request may have been done.",
            Advice::NetRubbish => {
                "The answer broke off, or is none of a desk's. The request may have been done."
            }
            Advice::ShutInUse => "Another program has the file: a desk, a command or sqlite3.",
            Advice::ShutByVend => {
                "Another vend has the file: a desk, or a command that has not ended."
            }
            Advice::ShutByOther => "Another program has the file, such as sqlite3 or a backup.",
            Advice::ShutBarred => "You have no right to read and write the file and its folder.",
            Advice::ShutNoFolder =>
                "The folder of the file does not exist, or you have no right to write there.",
            Advice::ShutSpecial =>
                "SQLite reads :memory:, and names that begin with file:, in its own way.",
            Advice::ShutFolder => "It is a folder.",
            Advice::ShutNoDatabase => "The file is no database.",
            Advice::ShutLinked => "The file has a second hard link.",
            Advice::ShutJournal =>
                "A journal is beside the file: another program writes to it, or was killed.",
            Advice::ShutVacuum => "The file has auto_vacuum.",
            Advice::ShutTrigger => "The file has a trigger on a table of the office.",
            Advice::ShutVirtual => "The file has a virtual table, as of FTS or R-tree.",
            Advice::ShutIndex => "The file has an index with WHERE on a table of the office.",
            Advice::ShutFull => "The disk is full.",
            Advice::StoreFull => "The office's disk is full.",
            Advice::ColumnMeter => {
                "The column meter has to be eleven digits, the last the check digit."
            }
            Advice::ColumnBase => "The column base has to be 1993, 2014 or 2035.",
            Advice::ColumnTariff => {
                "The column tariff has to be 1 to 32 ASCII letters, digits or hyphens."
            }
            Advice::ColumnKey => "The column key has to be sixteen lower-case hexadecimal digits.",
            Advice::ColumnName => {
                "The column name has to be 1 to 32 ASCII letters, digits or hyphens."
            }
            Advice::ColumnSteps => {
                "The column steps has to be as 500:10;:15, one to eight, with the last open."
            }
            Advice::ColumnFrom => "The column from has to be a day as 2026-07-01, or empty.",
        }
    }

    /// What to do about it.
    pub fn remedy(self) -> &'static str
        ensures { result.now ≡ remedy_of self }
    {
        match self {
            Advice::Refused(refusal) => refusal_remedy(refusal),
            Advice::Amount => "Choose another.",
            Advice::Clock => "Set it right. With --file you can give --at instead.",
            Advice::Value => "The command's --help has the rules.",
            Advice::Place => "Give --file, or --desk without --wait, --at and --transform.",
            Advice::File => "Correct its name or its rights.",
            Advice::Net => "Give the same command again, with the same --ref.",
            Advice::NotAnOffice => "Name another file, or undo the change.",
            Advice::OpenStore => "Correct the name or the rights, undo the change, or try again.",
            Advice::OpenMemory => "Try again later.",
            Advice::DeskStopped =>
                "Make room, or audit the file. The next connection, or the next start, opens the file again.",
            Advice::RowHeader => "Correct it, and send the file again.",
            Advice::RowColumns => "Correct it, and send the file again.",
            Advice::RowField => "Correct it, and send the file again.",
            Advice::RowTooMany => "Divide it, and send each part.",
            Advice::RowDiffers => "Correct it, and send the file again.",
            Advice::RowNoTariff => {
                "Import the tariffs first, or correct it, and send the file again."
            }
            Advice::RowDayPast => "Correct it, and send the file again.",
            Advice::WordTransform => "Correct this value.",
            Advice::WordAt => "Correct this value.",
            Advice::WordWait => "Correct this value.",
            Advice::WordDesk => "Correct this value.",
            Advice::WordListen => "Correct this value.",
            Advice::WordOperator => "Correct this value.",
            Advice::WordRef => "Correct this value.",
            Advice::WordMeter => "Correct this value.",
            Advice::WordBase => "Correct this value.",
            Advice::WordKey => "Correct this value.",
            Advice::WordTariff => "Correct this value.",
            Advice::WordFrom => "Correct this value.",
            Advice::WordTender => "Correct this value.",
            Advice::WordRows => "Give one of these words before the file.",
            Advice::WordPaper => "Correct this value.",
            Advice::WordNumber => "Correct this value.",
            Advice::WordAct => "Give open or close.",
            Advice::WordShown => "Give meter, sale or last.",
            Advice::WordListed => "Give one of these words.",
            Advice::WordAfter => "Correct this value.",
            Advice::WordJson => "Leave out --json.",
            Advice::LacksMeter => "Add it, with the meter's number.",
            Advice::LacksOrder => "Give both.",
            Advice::WordSteps => "Correct this value.",
            Advice::WordPrior => "Correct this value.",
            Advice::WordAmount => "Correct this value.",
            Advice::WordSync => "Correct this value.",
            Advice::WordConnections => "Correct this value.",
            Advice::NoText => "Correct it.",
            Advice::FileMissing => "Correct its name.",
            Advice::FileBarred => "Give it to your user, or ask another to do this.",
            Advice::FileFolder => "Name a file.",
            Advice::FileTooLong => "Divide it, and send each part.",
            Advice::NetTaken => "End it, or take another port.",
            Advice::NetNotHere => "Take an address of this computer, and a port that you may use.",
            Advice::NetNobody =>
                "Start the desk, or correct the address. Give the same command again, with the same --ref.",
            Advice::NetSilent => "Give the same command again, with the same --ref.",
            Advice::NetRubbish => {
                "Correct the address, if no desk is there. Give the same command again, with the same --ref."
            }
            Advice::ShutInUse =>
                "Ask a desk by --desk. End another program, or give a longer --wait.",
            Advice::ShutByVend => "Ask the desk by --desk, or give a longer --wait.",
            Advice::ShutByOther => "End it, or give a longer --wait.",
            Advice::ShutBarred => "Use a user who has both.",
            Advice::ShutNoFolder =>
                "Correct the name, or make the folder, or use a user who has the right.",
            Advice::ShutSpecial => "Put ./ in front.",
            Advice::ShutFolder => "Name a file.",
            Advice::ShutNoDatabase => "Correct its name.",
            Advice::ShutLinked => "Remove the link.",
            Advice::ShutJournal =>
                "End that program. If the journal stays, let sqlite3 read the file: SELECT count(*) FROM sales;",
            Advice::ShutVacuum => "Undo it in sqlite3: PRAGMA auto_vacuum=0; VACUUM;",
            Advice::ShutTrigger => "Undo it in sqlite3: DROP TRIGGER name;",
            Advice::ShutVirtual => "Undo it in sqlite3: DROP TABLE name;",
            Advice::ShutIndex => "Undo it in sqlite3: DROP INDEX name;",
            Advice::ShutFull => "Make room, and try again.",
            Advice::StoreFull => "Make room, and try the same again.",
            Advice::ColumnMeter => "Correct it, and send the file again.",
            Advice::ColumnBase => "Correct it, and send the file again.",
            Advice::ColumnTariff => "Correct it, and send the file again.",
            Advice::ColumnKey => "Correct it, and send the file again.",
            Advice::ColumnName => "Correct it, and send the file again.",
            Advice::ColumnSteps => "Correct it, and send the file again.",
            Advice::ColumnFrom => "Correct it, and send the file again.",
        }
    }

    /// The advice of which this one is a closer form.
    #[tactic(auto, unfolding(crate::specs::Advice::general_of))]
    pub fn general(self) -> Advice
        ensures { result ≡ general_of self }
    {
        match self {
            Advice::WordTransform
            | Advice::WordAt
            | Advice::WordWait
            | Advice::WordDesk
            | Advice::WordListen
            | Advice::WordOperator
            | Advice::WordRef => Advice::Value,
            Advice::WordMeter
            | Advice::WordBase
            | Advice::WordKey
            | Advice::WordTariff
            | Advice::WordFrom
            | Advice::WordTender
            | Advice::WordRows
            | Advice::WordPaper => Advice::Value,
            Advice::WordNumber
            | Advice::WordAct
            | Advice::WordShown
            | Advice::WordListed
            | Advice::WordAfter
            | Advice::WordJson
            | Advice::LacksMeter => Advice::Value,
            Advice::LacksOrder
            | Advice::WordSteps
            | Advice::WordPrior
            | Advice::WordAmount
            | Advice::WordSync
            | Advice::WordConnections
            | Advice::NoText => Advice::Value,
            Advice::FileMissing | Advice::FileBarred | Advice::FileFolder | Advice::FileTooLong =>
                Advice::File,
            Advice::NetTaken
            | Advice::NetNotHere
            | Advice::NetNobody
            | Advice::NetSilent
            | Advice::NetRubbish => Advice::Net,
            Advice::ShutInUse
            | Advice::ShutBarred
            | Advice::ShutNoFolder
            | Advice::ShutSpecial
            | Advice::ShutFolder
            | Advice::ShutNoDatabase
            | Advice::ShutLinked
            | Advice::ShutJournal => Advice::OpenStore,
            Advice::ShutVacuum
            | Advice::ShutByVend
            | Advice::ShutByOther
            | Advice::ShutTrigger
            | Advice::ShutVirtual
            | Advice::ShutIndex
            | Advice::ShutFull => Advice::OpenStore,
            Advice::StoreFull => Advice::Refused(Refusal::Store),
            Advice::ColumnMeter
            | Advice::ColumnBase
            | Advice::ColumnTariff
            | Advice::ColumnKey
            | Advice::ColumnName
            | Advice::ColumnSteps
            | Advice::ColumnFrom => Advice::RowField,
            advice => advice,
        }
    }
}
