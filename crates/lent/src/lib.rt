// Bytes put into lent memory: what the writer lays out and what the report prints.
#![tactic(auto)]

ghost use Rattle.std.specs.Prelude.{◌≡◌, ◌+◌, ◌≤◌, length};
ghost use Rattle.lent.specs.Adding.{Adds};
ghost use Rattle.lent.specs.Filled.{HasRoom, Grows};

// The bytes from `at` on; the place after them.
pub fn put(out: &mut [u8], at: usize, bytes: &[u8]) -> usize
    requires { at + length bytes.now ≤ length out.old }
    ensures { Adds out.old at out.new result bytes.now }
{
    let end = at + bytes.len();
    out[at..end].copy_from_slice(bytes);
    end
}

// Lent bytes that are filled from their start up to `end`.
#[derive(Drop)]
pub struct Filled<'a> {
    pub bytes: &'a mut [u8],
    pub end: usize,
}

impl<'a> Filled<'a> {
    // Nothing is filled yet.
    pub fn new(bytes: &'a mut [u8]) -> Filled<'a>
        ensures same_reference { result.bytes.ghost_name ≡ bytes.entry.ghost_name }
        ensures bytes { result.bytes.now ≡ bytes.old }
        ensures end { result.end ≡ 0 }
    {
        Filled { bytes, end: 0 }
    }

    // These bytes behind what is there.
    pub fn add(&mut self, bytes: &[u8])
        requires { HasRoom self.old bytes.now }
        ensures { Grows self.old self.new bytes.now }
    {
        let out = &mut *self.bytes;
        self.end = put(out, self.end, bytes);
    }
}
