// What a case gave, as the rest of its line.
use crate::images::Roster;
use std::fmt;
use yard_text::Answer;

// What a turn answers: of itself, idle or refused for the plan or the roster; or the lane, and what its settling answers.
#[derive(Clone, Copy)]
pub(super) enum Turn {
    Own(Answer),
    Lane(u32, Answer),
}

impl From<u32> for Turn {
    fn from(packed: u32) -> Turn {
        match (packed >> 24, Answer::from(packed & 0xff_ffff)) {
            (lane, Answer::Refused(n @ 12..=14)) => Turn::Lane(lane, Answer::Refused(n)),
            (_, Answer::Refused(n)) => Turn::Own(Answer::Refused(n)),
            (0, Answer::Idle) => Turn::Own(Answer::Idle),
            (lane, said) => Turn::Lane(lane, said),
        }
    }
}

impl fmt::Display for Turn {
    fn fmt<W: fmt::Write>(&self, f: &mut fmt::Formatter<W>) -> fmt::Result {
        match self {
            Turn::Own(said) => write!(f, "{said}"),
            Turn::Lane(lane, said) => write!(f, "lane {lane}, {said}"),
        }
    }
}

// What the last step gave.
#[derive(Clone, Copy)]
pub(super) enum Given {
    Answer(Answer),
    Turn(Turn),
    Number(u64),
    Signed(i32),
    Image(bool),
    Images(bool),
    Waits(Roster),
}

impl fmt::Display for Given {
    fn fmt<W: fmt::Write>(&self, f: &mut fmt::Formatter<W>) -> fmt::Result {
        match self {
            Given::Answer(answer) => write!(f, "{answer}"),
            Given::Turn(turn) => write!(f, "{turn}"),
            Given::Number(n) => write!(f, "{n}"),
            Given::Signed(n) => write!(f, "{n}"),
            Given::Image(true) => f.write_str("as it was"),
            Given::Images(true) => f.write_str("as they were"),
            Given::Image(false) | Given::Images(false) => f.write_str("changed"),
            Given::Waits(roster) => write!(f, "{roster}"),
        }
    }
}
