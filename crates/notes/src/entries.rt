// The entries of a record whose texts ascend: one is found by leaps.
ghost use Rattle.std.specs.Prelude.{◌≡◌, true};
ghost use Rattle.cedar.specs.Numbered.{entry_of};
ghost use Rattle.sheet.specs.State.{entries_of};
ghost use Rattle.value.specs.Shapes.{value_found};
ghost use Rattle.notes.specs.Leaps.{rising, Even, Skips};

use value::entry_of;

// The words that a leap passes, two for each entry: of a long one and of a short one.
const FAR: usize = 128;

const NEAR: usize = 16;

// Whether the texts of entries ascend.
pub fn rises(words: &[u32]) -> bool
    ensures { result ≡ rising 0 words.now }
{
    let mut low: usize = 0;
    let mut i = 0;
    loop {
        if words.len() - i < 1 {
            break true;
        }
        if words.len() - i < 2 {
            break false;
        }
        let x = words[i] as usize;
        if x < low {
            break false;
        }
        low = x + 1;
        i += 2;
    }
}

// A place before which no entry has this text: from one such on by leaps, as far as the text there is not past it.
fn skip(words: &[u32], text: u32, from: usize, leap: usize) -> usize
    requires words_value { rising 0 words.now ≡ true }
    requires skips { Skips words.now text from }
    requires even { Even leap }
    ensures { Skips words.now text result }
{
    let mut i = from;
    loop {
        if words.len() - i <= leap {
            break i;
        }
        if words[i + leap] > text {
            break i;
        }
        i += leap;
    }
}

// The value that ascending entries have for a text.
pub fn entry_rising(words: &[u32], text: u32) -> Option<u32>
    requires { rising 0 words.now ≡ true }
    ensures { value_found result ≡ entry_of text (entries_of words.now) }
{
    if words.len() <= NEAR {
        return entry_of(words, text);
    }
    let i = skip(words, text, 0, FAR);
    let j = skip(words, text, i, NEAR);
    entry_of(&words[j..], text)
}
