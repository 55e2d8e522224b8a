#![tactic(auto)]
// Runs the cases of standard input, and writes a line for each: its label, and what it gave. The cases are in crates/yard_limits/stdin. Their language:
//
// A line is a case, LABEL: STEP; STEP; .. It writes the label and what its last step gave; a line with no label writes nothing. A line that begins with # is a comment.
// What a line leaves (plan, moves, images, roster) the next one finds. A line with a step that cannot be read, or with a label and a last step that gives nothing,
// writes its label, or itself where it has none, and 'cannot be read'. Numbers are decimal, with - for those below 0; code words are hexadecimal.
//
// The plan:
//   counts C V T I K S F W   a plan of these counts (F is the first oracle state), lawful but for what they break. Its number is 7. A component has 2 locations and 2 ports; a
//                            variable is component 0's and starts with 0; a transition leads from location 0 through port 0 to 1; an interaction is port 0 of component 0; there
//                            are no ranks; a proposition is word 0; an oracle state has verdict 2 and leads to state 0; a word is 0000
//   bytes AT N ..            bytes from place AT on
//   words AT N ..            16 bits each, in hexadecimal
//   longs AT N ..            32 bits each
//   times N                  what the last step wrote stands N times in all
//   chain AT N               the rank rows of N interactions, each below every one of a higher number
//   length N                 the first N bytes are lent as the plan
//   keep NAME                keeps the plan: NAME as a step takes it again, of the length that it states. At most 24 plans of 4096 bytes, names of 8 letters
// The moves of a list or a log:
//   moves N ..               the entries, none where no number follows
//   more N ..                further entries
//   odd                      the last byte is left out
// The images, nine of them end to end, of which all calls but a turn take the first:
//   image AT N ..            bytes from place AT on
//   size N                   the first N bytes are lent in this line, where not 312, or for a turn 312 a lane
//   starts                   starts the first and makes the others like it
// The roster, of at most nine lanes:
//   lanes N ..               free lanes, numbered from 0, that waited N turns
//   lane I NUMBER HELD WAIT  the record at place I
// Calls, which give their answers:
//   check, start, offered, try N, settle, list, log, turn; bits, the offered bits; index, the index that goes with a log
// Looks, which give what they see:
//   byte AT                  a byte of the images
//   marks, value N           the marks of the image, and variable N
//   waits                    the waits of the roster
//   same                     whether the images are as before the last call, but for the marks of the first
//   others N                 whether they are, but for that of lane N
//   kept                     whether the images and the roster are
mod given;
mod images;
mod lent;
mod memory;
mod names;
mod reading;

use given::Given;
use images::Images;
use lent::Lent;
use names::{Call, Name, PlanStep, Step};
use reading::{Unreadable, first_word, parse, trimmed};
use std::io;
use yard_text::{Answer, read_up_to};

// The longest text. It and all memory of the cases are fixed: nothing new is trusted, and the heap would add the contracts of C's allocator.
const TEXT: usize = 131072;

// The line of a case: its label, and what its last step gave.
fn tell(rt: &impl Print, label: &[u8], given: Result<Option<Given>, Unreadable>) -> io::Result<()> {
    rt.write_all(label)?;
    rt.write_all(b": ")?;
    match given {
        Ok(Some(given)) => rt.print(given)?,
        _ => rt.write_all(b"cannot be read")?,
    }
    rt.write_all(b"\n")
}

// What is lent to the calls.
#[derive(Drop)]
struct Cases {
    lent: Lent,
    images: Images,
}

impl Cases {
    // A call, with what is lent to it.
    fn call(&mut self, call: Call) -> Given {
        self.images.remember();
        let plan = self.lent.plan();
        let moves = self.lent.moves();
        let image = self.images.lent(1);
        let answer = match call {
            Call::Check => yard::yard_check(plan),
            Call::Start => yard::yard_start(plan, image),
            Call::Offered => yard::yard_offered(plan, image),
            Call::Try(n) => yard::yard_try(plan, image, n),
            Call::Settle => yard::yard_settle(plan, image),
            Call::List => yard::yard_list(plan, image, moves),
            Call::Log => yard::yard_log(plan, moves),
            Call::Bits => return Given::Number(yard::yard_offered_bits(plan, image)),
            Call::Index => return Given::Number(yard::yard_log_index(plan, moves)),
            Call::Turn => return Given::Turn(self.images.turn(plan)),
        };
        Given::Answer(Answer::from(answer))
    }

    // starts: starts the first image and makes the others like it.
    fn start_all(&mut self) -> Given {
        let given = self.call(Call::Start);
        self.images.spread();
        given
    }

    // A step with its numbers.
    fn perform(&mut self, step: Step, numbers: &[u32]) -> Result<Option<Given>, Unreadable> {
        Ok(match (step, numbers) {
            (Step::Plan(step), _) => {
                self.lent.step(step, numbers)?;
                None
            }
            (Step::Images(step), _) => {
                self.images.step(step, numbers)?;
                None
            }
            (Step::Look(look), _) => Some(self.images.look(look, numbers)?),
            (Step::Call(call), []) => Some(self.call(call)),
            (Step::Try, [n]) => Some(self.call(Call::Try(*n))),
            (Step::Starts, []) => Some(self.start_all()),
            _ => return Err(Unreadable),
        })
    }

    // A step of the text.
    fn step(&mut self, text: &[u8]) -> Result<Option<Given>, Unreadable> {
        let (word, rest) = first_word(text);
        let name = Name::of(word).ok_or(Unreadable)?;
        let step = Step::named(name);
        if let Some(Step::Keep) = step {
            let plan = Name::of(trimmed(rest)).ok_or(Unreadable)?;
            self.lent.keep(plan)?;
            return Ok(None);
        }
        let hex = matches!(step, Some(Step::Plan(PlanStep::Words)));
        let mut buffer = [0; 32];
        let numbers = parse(rest, hex, &mut buffer).ok_or(Unreadable)?;
        match step {
            Some(step) => self.perform(step, numbers),
            None if numbers.is_empty() => {
                self.lent.take(name)?;
                Ok(None)
            }
            None => Err(Unreadable),
        }
    }

    // The steps of a line, up to one that cannot be read: what the last one gave.
    fn steps(&mut self, text: &[u8]) -> Result<Option<Given>, Unreadable> {
        let mut given = None;
        for step in text.split_inclusive(|b| *b == b';') {
            given = self.step(step.strip_suffix(b";").unwrap_or(step))?;
        }
        Ok(given)
    }

    // One line of the text that is no comment.
    fn line(&mut self, rt: &impl Print, line: &[u8]) -> io::Result<()> {
        self.images.size = None;
        if let Some(colon) = line.iter().position(|b| *b == b':') {
            let given = self.steps(&line[colon + 1..]);
            return tell(rt, &line[..colon], given);
        }
        match self.steps(line) {
            Ok(_) => Ok(()),
            unreadable => tell(rt, line, unreadable),
        }
    }
}

fn main(rt: HostRuntime) -> io::Result<()> {
    let mut text = [0u8; TEXT];
    let len = read_up_to(&mut rt.reader(), &mut text)?;
    let mut cases = Cases {
        lent: Lent::new(),
        images: Images::new(),
    };
    for line in text[..len].split(|b| *b == b'\n') {
        // an empty line has no step, and is passed over at once
        if !line.is_empty() && !line.starts_with(b"#") {
            cases.line(&rt, line)?;
        }
    }
    if len == TEXT {
        rt.write_all(b"the cases are longer than the memory for them\n")?;
    }
    Ok(())
}
