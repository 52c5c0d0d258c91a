// Texts stand behind the lines of a file.
ghost use Rattle.std.specs.Prelude.{◌≡◌, ◌<◌, ◌∷◌, [], ◌++◌, ◌≤◌, length, take, true, IfSome, IsNone};
ghost use Rattle.std.specs.Io.KnownBytes.{Consumes};

use std::io::Read;

// The most bytes of a text that a program lends room for.
pub const MOST: usize = 4096;

// How many bytes a read gives: none at the end of the file, nor if it fails.
fn given<R: Read>(file: &mut R, room: &mut [u8]) -> usize
    ensures bounded { result ≤ length room.old }
    ensures bytes { Consumes (R.remaining file.old) (R.remaining file.new) (take result room.new) }
{
    file.read(room).unwrap_or(0)
}

// Reads until the room is full or the file ends, and gives how many bytes there were. They stand at
// the front. The loop counts what each read gave, which no iterator does.
pub fn some<R: Read>(file: &mut R, room: &mut [u8]) -> usize
    ensures bounded { result ≤ length room.new }
    ensures kept { length room.new ≡ length room.old }
    ensures bytes { Consumes (R.remaining file.old) (R.remaining file.new) (take result room.new) }
{
    let mut done = 0;
    while done < room.len() {
        let more = given(file, &mut room[done..]);
        if more == 0 {
            break;
        }
        done += more;
    }
    done
}

// Whether there are bytes that fill the room. They are read into it.
pub fn full<R: Read>(file: &mut R, room: &mut [u8]) -> bool
    ensures kept { length room.new ≡ length room.old }
    ensures bytes { result ≡ true → Consumes (R.remaining file.old) (R.remaining file.new) room.new }
{
    let whole = room.len();
    some(file, room) == whole
}

// The same of a text with a line feed behind it.
pub fn full_text<R: Read>(file: &mut R, room: &mut [u8]) -> bool
    ensures kept { length room.new ≡ length room.old }
    ensures bytes { result ≡ true →
        Consumes (R.remaining file.old) (R.remaining file.new) (room.new ++ 10 ∷ []) }
{
    let filled = full(file, room);
    let mut end = [0u8; 1];
    let m = some(file, &mut end);
    filled & (m == 1) & (end[0] == b'\n')
}

// The next bytes, as many as the room has if the file does not end before. At its end there are none.
pub fn line<'a, R: Read>(file: &mut R, room: &'a mut [u8]) -> Option<&'a [u8]>
    ensures end { IsNone result → Consumes (R.remaining file.old) (R.remaining file.new) [] }
    ensures bounded { IfSome result (λ bytes. (0 < length bytes.now) × (length bytes.now ≤ length room.old)) }
    ensures bytes { IfSome result (λ bytes. Consumes (R.remaining file.old) (R.remaining file.new) bytes.now) }
{
    let end = some(file, room);
    if end == 0 { None } else { Some(&room[..end]) }
}

// So many of the next bytes. There are none if the room has fewer, or if the file ends before.
pub fn bytes<'a, R: Read>(file: &mut R, room: &'a mut [u8], size: usize) -> Option<&'a [u8]>
    ensures size { IfSome result (λ bytes. length bytes.now ≡ size) }
    ensures bytes { IfSome result (λ bytes. Consumes (R.remaining file.old) (R.remaining file.new) bytes.now) }
{
    let part = room.get_mut(..size)?;
    if full(file, part) { Some(part) } else { None }
}

// The same of a text with a line feed behind it.
pub fn text<'a, R: Read>(file: &mut R, room: &'a mut [u8], size: usize) -> Option<&'a [u8]>
    ensures size { IfSome result (λ bytes. length bytes.now ≡ size) }
    ensures bytes { IfSome result (λ bytes.
        Consumes (R.remaining file.old) (R.remaining file.new) (bytes.now ++ 10 ∷ [])) }
{
    let part = room.get_mut(..size)?;
    if full_text(file, part) {
        Some(part)
    } else {
        None
    }
}
