// The names of steps and of plans.
// The letters of a name, at most eight, at the end of eight bytes. Zeros before them are no letters.
#[derive(Clone, Copy, PartialEq, Eq)]
pub(super) struct Name([u8; 8]);

impl Name {
    // A word as a name.
    pub(super) fn of(word: &[u8]) -> Option<Name> {
        let start = word.iter().position(|b| *b != 0)?;
        let letters = &word[start..];
        let mut name = [0; 8];
        let at = name.len().checked_sub(letters.len())?;
        name[at..].copy_from_slice(letters);
        Some(Name(name))
    }

    fn letters(&self) -> &[u8] {
        match self.0.iter().position(|b| *b != 0) {
            Some(at) => &self.0[at..],
            None => &[],
        }
    }
}

// The steps on the plan and the moves.
#[derive(Clone, Copy)]
pub(super) enum PlanStep {
    Counts,
    Bytes,
    Words,
    Longs,
    Chain,
    Times,
    Length,
    Moves,
    More,
    Odd,
}

// The steps on the images and the roster.
#[derive(Clone, Copy)]
pub(super) enum ImageStep {
    Image,
    Size,
    Lanes,
    Lane,
}

#[derive(Clone, Copy)]
pub(super) enum Call {
    Check,
    Start,
    Offered,
    Try(u32),
    Settle,
    List,
    Log,
    Turn,
    Bits,
    Index,
}

#[derive(Clone, Copy)]
pub(super) enum Look {
    Byte,
    Marks,
    Value,
    Same,
    Others,
    Kept,
    Waits,
}

#[derive(Clone, Copy)]
pub(super) enum Step {
    Plan(PlanStep),
    Images(ImageStep),
    Call(Call),
    Try,
    Starts,
    Look(Look),
    Keep,
    Nothing,
}

impl Step {
    // The step of a name. - is a name that no plan may have, and cannot be read.
    pub(super) fn named(name: Name) -> Option<Step> {
        Some(match name.letters() {
            b"counts" => Step::Plan(PlanStep::Counts),
            b"bytes" => Step::Plan(PlanStep::Bytes),
            b"words" => Step::Plan(PlanStep::Words),
            b"longs" => Step::Plan(PlanStep::Longs),
            b"chain" => Step::Plan(PlanStep::Chain),
            b"times" => Step::Plan(PlanStep::Times),
            b"length" => Step::Plan(PlanStep::Length),
            b"moves" => Step::Plan(PlanStep::Moves),
            b"more" => Step::Plan(PlanStep::More),
            b"odd" => Step::Plan(PlanStep::Odd),
            b"keep" => Step::Keep,
            b"image" => Step::Images(ImageStep::Image),
            b"size" => Step::Images(ImageStep::Size),
            b"lanes" => Step::Images(ImageStep::Lanes),
            b"lane" => Step::Images(ImageStep::Lane),
            b"starts" => Step::Starts,
            b"check" => Step::Call(Call::Check),
            b"start" => Step::Call(Call::Start),
            b"offered" => Step::Call(Call::Offered),
            b"try" => Step::Try,
            b"settle" => Step::Call(Call::Settle),
            b"list" => Step::Call(Call::List),
            b"log" => Step::Call(Call::Log),
            b"turn" => Step::Call(Call::Turn),
            b"bits" => Step::Call(Call::Bits),
            b"index" => Step::Call(Call::Index),
            b"byte" => Step::Look(Look::Byte),
            b"marks" => Step::Look(Look::Marks),
            b"value" => Step::Look(Look::Value),
            b"same" => Step::Look(Look::Same),
            b"others" => Step::Look(Look::Others),
            b"kept" => Step::Look(Look::Kept),
            b"waits" => Step::Look(Look::Waits),
            b"-" => Step::Nothing,
            _ => return None,
        })
    }
}
