// Writing into memory. Nothing is written past its end, and a place past its end is none.
ghost use Rattle.std.specs.Prelude.{◌≤◌};

// Writes bytes from a place on, as many as there is room for. Gives the place after them where there was room for all.
pub(super) fn put(mem: &mut [u8], at: usize, bytes: &[u8]) -> Option<usize> {
    let room = mem.get_mut(at..)?;
    for (to, b) in room.iter_mut().zip(bytes) {
        *to = *b;
    }
    if bytes.len() > room.len() {
        return None;
    }
    at.checked_add(bytes.len())
}

// Writes numbers of so many bytes each, lowest first, up to one that does not fit into them. Gives the place after the last where all fitted.
pub(super) fn write(mem: &mut [u8], at: usize, width: usize, numbers: &[u32]) -> Option<usize> {
    let mut to = at;
    for n in numbers {
        let bytes = n.to_le_bytes();
        if bytes.get(width..)?.iter().any(|b| *b != 0) {
            return None;
        }
        to = put(mem, to, bytes.get(..width)?)?;
    }
    Some(to)
}

// Has the bytes between two places stand n times in all. Gives the place after the last.
pub(super) fn repeat(mem: &mut [u8], from: usize, to: Option<usize>, n: usize) -> Option<usize> {
    if n == 0 {
        return Some(from);
    }
    let to = to?;
    let len = to.checked_sub(from)?;
    let end = from.checked_add(len.checked_mul(n)?)?;
    // By places: each byte is one that the loop may have written.
    for i in to..end.min(mem.len()) {
        mem[i] = mem[i - len];
    }
    if end > mem.len() {
        return None;
    }
    Some(end)
}
