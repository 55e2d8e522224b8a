// What a call answers, by its number: kind * 65536 + the number that goes with the kind.
ghost use Rattle.std.specs.Prelude.{◌≡◌, Some};
ghost use Rattle.yard_text.specs.Answers.{answer_of, words_of};

use std::fmt;

/// The interaction for a committed or cancelled move, the number for a refusal, the cause for a wrong log; whatever else a number says is unknown.
// A refusal stays its number, which the programs print.
#[derive(Clone, Copy, Debug, PartialEq, Eq)]
pub enum Answer {
    Accepted,
    Committed(u16),
    Cancelled(u16),
    Stalled,
    Penned,
    Refused(u16),
    Wrong(u16),
    Idle,
    Unknown(u32),
}

impl From<u32> for Answer {
    ghost from_gives = { λ n r. r ≡ answer_of n };

    fn from(packed: u32) -> Answer {
        // the mask leaves sixteen bits
        let number = (packed & 0xffff) as u16;
        match packed >> 16 {
            0 if number == 0 => Answer::Accepted,
            1 => Answer::Committed(number),
            2 => Answer::Cancelled(number),
            3 if number == 0 => Answer::Stalled,
            4 if number == 0 => Answer::Penned,
            5 => Answer::Refused(number),
            6 => Answer::Wrong(number),
            7 if number == 0 => Answer::Idle,
            _ => Answer::Unknown(packed),
        }
    }
}

impl fmt::Display for Answer {
    ghost output = { λ a. Some (words_of a) };

    fn fmt<W: fmt::Write>(&self, f: &mut fmt::Formatter<W>) -> fmt::Result {
        match self {
            Answer::Accepted => f.write_str("accepted"),
            Answer::Committed(i) => write!(f, "committed {i}"),
            Answer::Cancelled(i) => write!(f, "cancelled {i}"),
            Answer::Stalled => f.write_str("stalled"),
            Answer::Penned => f.write_str("penned"),
            Answer::Refused(n) => write!(f, "refused {n}"),
            Answer::Wrong(n) => write!(f, "wrong {n}"),
            Answer::Idle => f.write_str("idle"),
            Answer::Unknown(n) => write!(f, "unknown {n}"),
        }
    }
}
