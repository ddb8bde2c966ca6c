// Removing the pointer mark (01, module 7).
ghost use Rattle.std.specs.Prelude.{◌+◌, ◌≤◌, ◌≡◌, ◌++◌, length, take, Some};
ghost use Rattle.lexis.specs.Text.{cut, place};
ghost use Rattle.meaning.specs.Parts.{remove};
ghost use Rattle.meaning.specs.Ordinary.{mark};
ghost use Rattle.port.specs.Passes.{Rewritten};

// The place of the first mark. A mark has a `#`, and its one `>` at its end: by these two it is sought.
// kept: the place goes on by `seek`, and is the answer
pub(crate) fn find_mark(text: &[u8]) -> Option<usize>
    ensures { result ≡ place (cut mark text.now) }
{
    let mut from = 0;
    loop {
        let h = lexis::seek(text, from, b'#');
        if text.len() <= h {
            return None;
        }
        let e = lexis::seek(text, h, b'>');
        if text.len() <= e {
            return None;
        }
        if from + 26 <= e {
            if lexis::begins(&text[e - 26..], b", #cuda_tile.ptr_attr<none>") {
                return Some(e - 26);
            }
        }
        from = e + 1;
    }
}

// Copies `s` into `room` from `at` on, and returns the place after it.
pub(crate) fn copy(s: &[u8], room: &mut [u8], at: usize) -> usize
    requires { at + length s.now ≤ length room.old }
    ensures { (result ≡ at + length s.now) × (take result room.new ≡ take at room.old ++ s.now) }
{
    let end = at + s.len();
    lexis::lay(&mut room[at..end], s);
    end
}

// Copies `text` without its marks, the first of which stands at `first`, to the front of `room`, and returns how many bytes that is.
fn remove(text: &[u8], first: usize, room: &mut [u8]) -> usize
    requires { (length text.now ≤ length room.old) × (place (cut mark text.now) ≡ Some first) }
    ensures { (result ≤ length room.new) × (take result room.new ≡ remove mark text.now) }
{
    let mut n = copy(&text[..first], &mut *room, 0);
    let mut t = &text[first + 27..];
    loop {
        match find_mark(t) {
            Some(i) => {
                n = copy(&t[..i], &mut *room, n);
                t = &t[i + 27..];
            }
            None => {
                return copy(t, &mut *room, n);
            }
        }
    }
}

// How many bytes `text` has without its marks; where it has one, these bytes stand at the front of `room` then.
pub(crate) fn without_marks(text: &[u8], room: &mut [u8]) -> usize
    requires { length text.now ≤ length room.old }
    ensures { Rewritten text.now room.new result }
{
    if text.len() < 27 { // shorter than a mark
        return text.len();
    }
    match find_mark(text) {
        Some(i) => remove(text, i, room),
        None => text.len(),
    }
}

// What is read on: a part of `text`, all of it, where no mark was found, of `room` otherwise. `n` is what `without_marks` answered.
pub(crate) fn to_read<'a>(text: &'a [u8], room: &'a [u8], n: usize) -> &'a [u8]
    requires { Rewritten text.now room.now n }
    ensures { result.now ≡ remove mark text.now }
{
    if n < text.len() { &room[..n] } else { text }
}
