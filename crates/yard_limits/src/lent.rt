// The memory that is lent as the plan and the moves, with the plans that are kept behind it.
// A number of a case is a u32, and there is no From of u32 for usize: `as usize`.
ghost use Rattle.std.specs.Prelude.{◌<◌, ◌≤◌, IfSome};

use crate::memory::{put, repeat, write};
use crate::names::{Name, PlanStep, Step};
use crate::reading::Unreadable;
use words::bytes::field;

// The plan stands first, from MOVES on the moves, and from KEPT on 24 plans that are kept. One memory: what a step writes past the end of one stands in the next.
const MOVES: usize = 32768;

const KEPT: usize = MOVES + 65536;

const KEPT_SIZE: usize = 4096;

// Records of a plan as counts lays it out. A variable, a rank row and a word are 0.
const COMPONENT: [u8; 4] = [2, 0, 2, 0];

const TRANSITION: [u8; 12] = [0, 0, 0, 1, 0, 0, 0, 0, 0, 0, 0, 0];

const INTERACTION: [u8; 24] = [
    0, 255, 255, 255, 255, 255, 255, 255, 255, 255, 255, 255, 255, 255, 255, 255, 0, 0, 0, 0, 0, 0,
    0, 0,
];

const PROPOSITION: [u8; 4] = [0, 0, 1, 0];

// The memory, how many bytes of it are lent as the plan, none where that is more than it has, where the moves end, where the bytes that were written last begin
// and end, and the names of the kept plans.
#[derive(Drop)]
pub(super) struct Lent {
    bytes: [u8; KEPT + 24 * KEPT_SIZE],
    plan: Option<usize>,
    moves_end: usize,
    from: usize,
    to: Option<usize>,
    names: [Option<Name>; 24],
}

// The length of an oracle state: its verdict and 2^K next states, for K up to 5.
fn state_size(k: usize) -> usize
    ensures { result ≤ 33 }
{
    match k {
        0 => 2,
        1 => 3,
        2 => 5,
        3 => 9,
        4 => 17,
        _ => 33,
    }
}

// The rank rows of a chain of n, from at on: each row has the numbers above its own.
fn chain(mem: &mut [u8], at: usize, n: u32) -> Option<usize> {
    let mut row = u64::MAX.checked_shr(64u32.checked_sub(n)?).unwrap_or(0);
    let mut to = at;
    for _ in 0..n {
        row &= row.wrapping_sub(1);
        to = put(mem, to, &row.to_le_bytes())?;
    }
    Some(to)
}

impl Lent {
    pub(super) fn new() -> Lent {
        Lent {
            bytes: [0; KEPT + 24 * KEPT_SIZE],
            plan: Some(0),
            moves_end: MOVES,
            from: 0,
            to: Some(0),
            names: [None; 24],
        }
    }

    // What is lent as the plan; nothing where it is more than the memory has.
    pub(super) fn plan(&self) -> &[u8] {
        match self.plan {
            Some(n) => self.bytes.get(..n).unwrap_or(&[]),
            None => &[],
        }
    }

    // What is lent as the moves.
    pub(super) fn moves(&self) -> &[u8] {
        self.bytes.get(MOVES..self.moves_end).unwrap_or(&[])
    }

    // Writes the lowest sixteen bits of a place, 0 where there is none.
    fn put_place(&mut self, at: usize, place: Option<usize>) {
        let [low, high, ..] = place.unwrap_or(0).to_le_bytes();
        put(&mut self.bytes, at, &[low, high]);
    }

    // One section: its offset, its record, and that as often as a count of the header says. Gives the place after it.
    fn section(
        &mut self,
        offset: usize,
        count: usize,
        at: Option<usize>,
        record: &[u8],
    ) -> Option<usize>
        requires { count ≤ 40 }
    {
        self.put_place(offset, at);
        let at = at?;
        let end = put(&mut self.bytes, at, record);
        let n = field(&self.bytes, count);
        repeat(&mut self.bytes, at, end, n)
    }

    // Lays out a plan by the counts in its header: the sections, and their offsets. Gives its length.
    fn lay(&mut self) -> Option<usize> {
        let mut state = [0; 33];
        state[0] = 2;
        let size = state_size(field(&self.bytes, 18));
        let at = self.section(26, 10, Some(48), &COMPONENT);
        let at = self.section(28, 12, at, &[0; 8]);
        let at = self.section(30, 14, at, &TRANSITION);
        let at = self.section(32, 16, at, &INTERACTION);
        let at = self.section(34, 16, at, &[0; 8]);
        let at = self.section(36, 18, at, &PROPOSITION);
        let at = self.section(38, 20, at, &state[..size]);
        let at = self.section(40, 24, at, &[0; 2]);
        self.put_place(8, at);
        at
    }

    // counts C V T I K S F W: the letters PLAN, the number 7, the counts from byte 10 on, and a plan laid out by them.
    fn counts(&mut self, numbers: &[u32]) -> Result<(), Unreadable> {
        put(&mut self.bytes, 0, b"PLAN\x07\0\0\0\0\0");
        write(&mut self.bytes, 10, 2, numbers);
        put(&mut self.bytes, 42, &[0; 6]);
        self.plan = self.lay();
        match self.plan {
            Some(n) if n <= MOVES => Ok(()),
            _ => Err(Unreadable),
        }
    }

    // Notes which bytes were written last. They are of the plan or of the moves, which have their limits.
    fn wrote(&mut self, from: usize, to: Option<usize>) -> Result<(), Unreadable> {
        self.from = from;
        self.to = to;
        match to {
            Some(to) if from >= MOVES && to <= KEPT => {
                self.moves_end = to;
                Ok(())
            }
            Some(to) if to <= MOVES => Ok(()),
            _ => Err(Unreadable),
        }
    }

    // bytes, words, longs and the moves: numbers of so many bytes from a place on.
    fn write(&mut self, at: usize, width: usize, numbers: &[u32]) -> Result<(), Unreadable>
        requires { width ≤ 4 }
    {
        let to = write(&mut self.bytes, at, width, numbers);
        self.wrote(at, to)
    }

    // times N: what was written last stands N times in all.
    fn times(&mut self, n: u32) -> Result<(), Unreadable> {
        if n > 65536 {
            return Err(Unreadable);
        }
        let from = self.from;
        let to = repeat(&mut self.bytes, from, self.to, n as usize);
        self.wrote(from, to)
    }

    // length N: the first N bytes are lent as the plan.
    fn length(&mut self, n: u32) -> Result<(), Unreadable> {
        if n as usize > MOVES {
            return Err(Unreadable);
        }
        self.plan = Some(n as usize);
        Ok(())
    }

    // odd: the last byte of the moves is not lent.
    fn odd(&mut self) -> Result<(), Unreadable> {
        if self.moves_end <= MOVES {
            return Err(Unreadable);
        }
        self.moves_end -= 1;
        Ok(())
    }

    // The steps on the plan and on the moves, with their numbers.
    pub(super) fn step(&mut self, step: PlanStep, numbers: &[u32]) -> Result<(), Unreadable> {
        match (step, numbers) {
            (PlanStep::Counts, [_, _, _, _, _, _, _, _]) => self.counts(numbers),
            (PlanStep::Bytes, [at, bytes @ ..]) => self.write(*at as usize, 1, bytes),
            (PlanStep::Words, [at, words @ ..]) => self.write(*at as usize, 2, words),
            (PlanStep::Longs, [at, longs @ ..]) => self.write(*at as usize, 4, longs),
            (PlanStep::Chain, [at, n]) => {
                let at = *at as usize;
                let to = chain(&mut self.bytes, at, *n);
                self.wrote(at, to)
            }
            (PlanStep::Times, [n]) => self.times(*n),
            (PlanStep::Length, [n]) => self.length(*n),
            (PlanStep::Moves, _) => self.write(MOVES, 2, numbers),
            (PlanStep::More, _) => self.write(self.moves_end, 2, numbers),
            (PlanStep::Odd, []) => self.odd(),
            _ => Err(Unreadable),
        }
    }

    // The place among the kept plans of one with a name, or of one that is free.
    fn slot_of(&self, name: Option<Name>) -> Option<usize>
        ensures { IfSome result (λ i. i < 24) }
    {
        self.names.iter().position(|n| *n == name)
    }

    // The place for a plan of a name that is no step's: its own where one is kept under it, else one that is free.
    fn slot_for(&self, name: Name) -> Option<usize>
        ensures { IfSome result (λ i. i < 24) }
    {
        if Step::named(name).is_some() {
            return None;
        }
        match self.slot_of(Some(name)) {
            Some(slot) => Some(slot),
            None => self.slot_of(None),
        }
    }

    // keep NAME: the plan is kept under a name.
    pub(super) fn keep(&mut self, name: Name) -> Result<(), Unreadable> {
        let slot = self.slot_for(name).ok_or(Unreadable)?;
        let n = self.plan.filter(|n| *n <= KEPT_SIZE).ok_or(Unreadable)?;
        self.names[slot] = Some(name);
        self.bytes.copy_within(..n, KEPT + slot * KEPT_SIZE);
        Ok(())
    }

    // NAME: the plan is the one kept under it, as long as it says.
    pub(super) fn take(&mut self, name: Name) -> Result<(), Unreadable> {
        let slot = self.slot_of(Some(name)).ok_or(Unreadable)?;
        let at = KEPT + slot * KEPT_SIZE;
        self.bytes.copy_within(at..at + KEPT_SIZE, 0);
        self.plan = Some(field(&self.bytes, 8));
        Ok(())
    }
}
