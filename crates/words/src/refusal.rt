// Why a call is refused. The number of a refusal is what a caller outside is told.
ghost use Rattle.words.specs.Refusals.{NumberIs};

// The refusals of documents 01 and 02, by their numbers.
#[derive(Clone, Copy, PartialEq, Eq)]
pub enum Refusal {
    TooLong = 1,
    NotUtf8 = 2,
    EndsEarly = 3,
    StrayClose = 4,
    Unclosed = 5,
    TooDeep = 6,
    NoRoom = 7,
    Malformed = 8,
    DecimalRead = 9,
    RepeatedName = 10,
    BadLiteral = 11,
    BadFunc = 12,
    NumbersSpent = 13,
    NotWords = 14,
    Unwritable = 15,
    Unprintable = 16,
    WrongWidth = 17,
}

impl From<Refusal> for u32 {
    ghost from_gives = { NumberIs };

    fn from(refusal: Refusal) -> u32 {
        refusal as u32
    }
}
