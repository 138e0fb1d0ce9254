// What a program reads, and the room for it.
ghost use Rattle.std.specs.Prelude.{◌≡◌, ◌≤◌, ◌<◌, IfOk, IfSome, length, replicate};

use std::io;
use std::io::Read;

// Room for a program's input: the family's digit, the longest capture or script, and one byte more,
// which shows a longer one.
pub fn input_buffer() -> [u8; 65538]
    ensures room { 65538 ≡ length result }
    ensures zeros { result ≡ replicate 65538 0 }
{
    [0; 65538]
}

// Reads standard input until the buffer is full or the input ends, and gives the bytes that came.
pub fn read_full<'a>(rt: &impl Input, buffer: &'a mut [u8]) -> io::Result<&'a [u8]>
    ensures { IfOk result (λ bytes. length bytes.now ≤ length buffer.old) }
{
    let mut reader = rt.reader();
    let mut done = 0;
    // A read may give fewer bytes than there is room for: the place goes on by what came.
    while done < buffer.len() {
        let n = reader.read(&mut buffer[done..])?;
        if n == 0 {
            break;
        }
        done += n;
    }
    Ok(&buffer[..done])
}

// Reads a program's input: a family's digit, as its number, and the bytes behind it; or nothing.
pub fn read_input<'a>(rt: &impl Input, buffer: &'a mut [u8]) -> io::Result<Option<(u8, &'a [u8])>>
    ensures { IfOk result (λ input. IfSome input (λ read. length read.1.now < length buffer.old)) }
{
    let [digit, bytes @ ..] = read_full(rt, buffer)? else {
        return Ok(None);
    };
    Ok(Some((digit.wrapping_sub(b'0'), bytes)))
}
