// The report's text, put together in lent bytes: each function adds its part behind what is there.
#![tactic(auto)]

ghost use Rattle.std.specs.Prelude.{◌≡◌, ◌∷◌, [], ◌+◌, ◌≤◌, length};
ghost use Rattle.lent.specs.Filled.{Grows};
ghost use Rattle.text.specs.Text.{decimal, line as line_text, refusal_line, letter_of, step as step_text, route_line};

use lent::Filled;

// A number in decimal digits. (d) `write!` promises what stands there where it succeeds, and not that it succeeds where
// there is room; `io::decimal` always does. Room is a clause of each text: another number each.
fn number(out: &mut Filled, n: u64)
    requires { out.old.end + 20 ≤ length out.old.bytes.now }
    ensures grows { Grows out.old out.new (decimal n) }
    ensures few { out.new.end ≤ out.old.end + 20 }
{
    let mut digits = [0u8; 20];
    let k = io::decimal(n, &mut digits);
    out.add(&digits[..k]);
}

// A word and a number.
pub fn line(out: &mut Filled, word: &[u8], n: u64)
    requires { out.old.end + length word.now + 21 ≤ length out.old.bytes.now }
    ensures grows { Grows out.old out.new (line_text word.now n) }
    ensures few { out.new.end ≤ out.old.end + length word.now + 21 }
{
    out.add(word);
    number(out, n);
    out.add(b"\n");
}

// A refusal: its number and place. (a) Two numbers, and no reason, since they are those of its line (`refusal_line`).
pub fn refused(out: &mut Filled, n: u64, place: u64)
    requires { out.old.end + 60 ≤ length out.old.bytes.now }
    ensures grows { Grows out.old out.new (refusal_line n place) }
    ensures few { out.new.end ≤ out.old.end + 60 }
{
    out.add(b"refused ");
    number(out, n);
    line(out, b" at ", place);
}

// (a) Ways are numbers here, since they are document 01's route bytes, and `letter_of` says what each prints as.
fn letter(way: u8) -> u8
    ensures { result ≡ letter_of way }
{
    match way {
        1 => b'J',
        2 => b'F',
        _ => b'E',
    }
}

// A block that is on the route, with its way, a route byte as in `letter`.
fn step(out: &mut Filled, block: usize, way: u8)
    requires { out.old.end + 22 ≤ length out.old.bytes.now }
    ensures grows { Grows out.old out.new (step_text block way) }
    ensures few { out.new.end ≤ out.old.end + 22 }
{
    if way == 0 {
        return;
    }
    out.add(b" ");
    number(out, block as u64);
    out.add(&[letter(way)]);
}

// A word, and the blocks on a route with their ways.
pub fn route(out: &mut Filled, word: &[u8], ways: &[u8])
    requires room { out.old.end + length word.now + 1409 ≤ length out.old.bytes.now }
    requires few { length ways.now ≤ 64 }
    ensures grows { Grows out.old out.new (route_line word.now ways.now) }
    ensures few { out.new.end ≤ out.old.end + length word.now + 1409 }
{
    out.add(word);
    for (block, &way) in ways.iter().enumerate() {
        step(out, block, way);
    }
    // Written otherwise than in `line`: each end has an edit of its own.
    out.add(&[b'\n']);
}
