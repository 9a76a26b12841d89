// Reading until a buffer is full, over std's readers.
#![tactic(auto)]

ghost use Rattle.streams.specs.Filled.{IsPrefixLen};

use std::io::Read;

// Reads until the buffer is full, the input ends or a read fails, and returns how many bytes it put at the start of the buffer. On an empty
// buffer it makes no call.
pub fn read_full<R: Read>(from: &mut R, buf: &mut [u8]) -> usize
    ensures { IsPrefixLen result buf.new }
{
    let mut done = 0;
    while done < buf.len() {
        let n = from.read(&mut buf[done..]).unwrap_or(0);
        if n == 0 {
            break;
        }
        done += n;
    }
    done
}
