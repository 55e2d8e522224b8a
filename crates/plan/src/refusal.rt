// Why a call is refused. The number of each refusal, which C sees, is its discriminant.
ghost use Rattle.std.specs.Prelude.{◌≡◌};
ghost use Rattle.plan.specs.Numbers.{number};

#[derive(Clone, Copy, PartialEq, Eq, Debug)]
pub enum Refusal {
    // of a plan, with BadAdded: its header, its tables, its code
    BadHead = 1,
    BadCount = 2,
    BadLayout = 3,
    BadComponent = 4,
    BadVariable = 5,
    BadTransition = 6,
    BadInteraction = 7,
    BadRank = 8,
    BadOracle = 9,
    BadCode = 10,
    // of an image
    BadLength = 11,
    OtherPlan = 12,
    BadState = 13,
    FalseMark = 14,
    // of a start, and of a log
    BadStart = 15,
    // of a move that is tried, and of an entry of a log
    NoSuchMove = 16,
    NotEnabled = 17,
    Outranked = 18,
    Marked = 19,
    // of a plan: an added oracle's table
    BadAdded = 20,
    // of a log, of a list, of a turn
    OddLog = 21,
    BadList = 22,
    BadRoster = 23,
}

impl From<Refusal> for u8 {
    ghost from_gives = { λ r n. n ≡ number r };

    fn from(refusal: Refusal) -> u8 {
        refusal as u8
    }
}
