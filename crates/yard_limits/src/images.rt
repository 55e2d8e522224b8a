// The images, nine of them end to end, and the roster, whose nine records stand behind them as C has them, 4 bytes each.
// A number of a case is a u32, and there is no From of u32 for usize: `as usize`.
ghost use Rattle.std.specs.Prelude.{◌<◌, ◌≤◌};

use crate::given::{Given, Turn};
use crate::memory::{put, repeat, write};
use crate::names::{ImageStep, Look};
use crate::reading::Unreadable;
use layout::image::{LENGTH, MARKS, value_at};
use roster::record::Lane;
use std::ops::Range;
use std::{array, fmt};
use words::bytes::{u16_at, u32_at, u64_at};

// From ROSTER on stand the records, and from BEFORE on all of it as it was before the last call.
const ROSTER: usize = 9 * LENGTH;

// One memory: what a step writes past the images' end stands in the records, and past these in what was before.
const BEFORE: usize = ROSTER + 9 * 4;

// How many lanes the roster has.
#[derive(Clone, Copy)]
struct Lanes {
    count: usize,
    ghost nine: { count ≤ 9 },
}

// The records of the roster, of which its lanes have the first.
#[derive(Clone, Copy)]
pub(super) struct Roster {
    records: [Lane; 9],
    lanes: Lanes,
}

// The waits of the lanes.
impl fmt::Display for Roster {
    fn fmt<W: fmt::Write>(&self, f: &mut fmt::Formatter<W>) -> fmt::Result {
        for (i, lane) in self.records[..self.lanes.count].iter().enumerate() {
            if i > 0 {
                f.write_str(" ")?;
            }
            write!(f, "{}", lane.wait)?;
        }
        Ok(())
    }
}

// The images and the roster, how many lanes it has, and how many bytes of the images are lent in this line, where not 312 a lane.
#[derive(Drop)]
pub(super) struct Images {
    bytes: [u8; 2 * BEFORE],
    lanes: Lanes,
    pub size: Option<usize>,
}

impl Images {
    pub(super) fn new() -> Images {
        Images {
            bytes: [0; 2 * BEFORE],
            lanes: Lanes { count: 0 },
            size: None,
        }
    }

    // What is there is as it was before a call.
    pub(super) fn remember(&mut self) {
        self.bytes.copy_within(..BEFORE, BEFORE);
    }

    // The bytes that are lent for so many lanes.
    pub(super) fn lent(&mut self, lanes: usize) -> &mut [u8]
        requires { lanes ≤ 9 }
    {
        let size = self.size.unwrap_or(lanes * LENGTH).min(ROSTER);
        // In two steps: a part of a field, lent in one, gets no proof.
        let bytes = &mut self.bytes[..];
        &mut bytes[..size]
    }

    // Makes the others like the first.
    pub(super) fn spread(&mut self) {
        repeat(&mut self.bytes, 0, Some(LENGTH), 9);
    }

    // The record of lane i.
    fn lane(&self, i: usize) -> Lane
        requires { i < 9 }
    {
        let at = ROSTER + 4 * i;
        Lane {
            number: self.bytes[at],
            held: self.bytes[at + 1],
            wait: u16_at(&self.bytes, at + 2),
        }
    }

    // The roster as it stands in memory.
    fn roster(&self) -> Roster {
        Roster {
            records: array::from_fn(|i| self.lane(i)),
            lanes: self.lanes,
        }
    }

    // A turn of the roster.
    pub(super) fn turn(&mut self, plan: &[u8]) -> Turn {
        let mut records = self.roster().records;
        let lanes = self.lanes.count;
        let answer = yard::yard_turn(plan, &mut records[..lanes], self.lent(lanes));
        for (i, lane) in records.iter().enumerate() {
            let [low, high] = lane.wait.to_le_bytes();
            put(
                &mut self.bytes,
                ROSTER + 4 * i,
                &[lane.number, lane.held, low, high],
            );
        }
        Turn::from(answer)
    }

    // image AT N ..: bytes of the images from a place on.
    fn change(&mut self, at: u32, bytes: &[u32]) -> Result<(), Unreadable> {
        match write(&mut self.bytes, at as usize, 1, bytes) {
            Some(end) if end <= ROSTER => Ok(()),
            _ => Err(Unreadable),
        }
    }

    // size N: the first N bytes of the images are lent.
    fn set_size(&mut self, n: u32) -> Result<(), Unreadable> {
        if n as usize > ROSTER {
            return Err(Unreadable);
        }
        self.size = Some(n as usize);
        Ok(())
    }

    // lanes N ..: free lanes, numbered from 0, that waited so long.
    fn set_lanes(&mut self, waits: &[u32]) -> Result<(), Unreadable> {
        if waits.len() > 9 {
            return Err(Unreadable);
        }
        self.lanes = Lanes { count: waits.len() };
        let mut done = Ok(());
        for (i, wait) in waits.iter().enumerate() {
            let at = ROSTER + 4 * i;
            put(&mut self.bytes, at, &[i as u8, 0]);
            if write(&mut self.bytes, at + 2, 2, &[*wait]).is_none() {
                done = Err(Unreadable);
            }
        }
        done
    }

    // lane I NUMBER HELD WAIT: the record of one lane.
    fn set_lane(&mut self, i: u32, record: &[u32], wait: u32) -> Result<(), Unreadable> {
        if i >= 9 {
            return Err(Unreadable);
        }
        let at = ROSTER + 4 * i as usize;
        let end = write(&mut self.bytes, at, 1, record).ok_or(Unreadable)?;
        write(&mut self.bytes, end, 2, &[wait]).ok_or(Unreadable)?;
        Ok(())
    }

    // The steps on images and on the roster, with their numbers.
    pub(super) fn step(&mut self, step: ImageStep, numbers: &[u32]) -> Result<(), Unreadable> {
        match (step, numbers) {
            (ImageStep::Image, [at, bytes @ ..]) => self.change(*at, bytes),
            (ImageStep::Size, [n]) => self.set_size(*n),
            (ImageStep::Lanes, _) => self.set_lanes(numbers),
            (ImageStep::Lane, [i, number, held, wait]) => {
                self.set_lane(*i, &[*number, *held], *wait)
            }
            _ => Err(Unreadable),
        }
    }

    // Whether images and roster are as before the last call, up to a place and but for some bytes.
    fn alike(&self, end: usize, but: Range<usize>) -> bool
        requires { end ≤ 2844 }
    {
        let (now, before) = self.bytes.split_at(BEFORE);
        now[..end]
            .iter()
            .zip(before)
            .enumerate()
            .all(|(i, (b, old))| b == old || but.contains(&i))
    }

    // The looks, with their numbers.
    pub(super) fn look(&self, look: Look, numbers: &[u32]) -> Result<Given, Unreadable> {
        match (look, numbers) {
            (Look::Byte, [at]) if (*at as usize) < ROSTER => {
                Ok(Given::Number(u64::from(self.bytes[*at as usize])))
            }
            (Look::Marks, []) => Ok(Given::Number(u64_at(&self.bytes, MARKS))),
            (Look::Value, [n]) if *n < 64 => {
                let bits = u32_at(&self.bytes, value_at(*n as usize));
                Ok(Given::Signed(bits.cast_signed()))
            }
            (Look::Same, []) => Ok(Given::Image(self.alike(ROSTER, MARKS..MARKS + 8))),
            (Look::Others, [n]) if *n < 10 => {
                let at = *n as usize * LENGTH;
                Ok(Given::Images(self.alike(ROSTER, at..at + LENGTH)))
            }
            (Look::Kept, []) => Ok(Given::Images(self.alike(BEFORE, 0..0))),
            (Look::Waits, []) => Ok(Given::Waits(self.roster())),
            _ => Err(Unreadable),
        }
    }
}
