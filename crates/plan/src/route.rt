// The route's bytes in lent memory, from the sets of blocks left by jump or go and by fall. Both ways end with it.
ghost use Rattle.std.specs.Prelude.{◌≡◌, ◌++◌, ◌*◌, ◌<◌, ◌≤◌, length, drop};
ghost use Rattle.plan.specs.RouteWords.{byte_of, bytes_of};

use entries::Way;

// A route: the blocks left by jump or go, those left by fall. (d) search's Left has the same two sets: it grows by
// exits, this one is written as bytes, and one struct would leave either without its methods.
#[derive(Clone, Copy)]
pub struct Route {
    pub jumped: u64,
    pub fallen: u64,
}

// The route that a way tells.
impl From<Way> for Route {
    ghost from_gives = { λ way route. (route.jumped ≡ way.jumped) × (route.fallen ≡ way.fallen) };

    fn from(way: Way) -> Route {
        Route {
            jumped: way.jumped,
            fallen: way.fallen,
        }
    }
}

impl Route {
    // The byte of block b, of so many: (a) as document 01 numbers them.
    fn byte(self, count: usize, b: usize) -> u8
        requires { b < count }
        ensures { result ≡ byte_of count self.jumped self.fallen b }
    {
        if b + 1 == count {
            return 3;
        }
        if words::has(self.jumped, b) {
            return 1;
        }
        if words::has(self.fallen, b) { 2 } else { 0 }
    }

    // The bytes of all blocks.
    fn write(self, bytes: &mut [u8])
        ensures { bytes.new ≡ bytes_of (length bytes.old) self.jumped self.fallen }
    {
        let count = bytes.len();
        for (b, byte) in bytes.iter_mut().enumerate() {
            *byte = self.byte(count, b);
        }
    }
}

// Both routes' bytes at the start of the lent ones, one behind the other.
pub fn write_routes(bytes: &mut [u8], count: usize, first: Route, second: Route)
    requires { 2 * count ≤ length bytes.old }
    ensures { bytes.new ≡ bytes_of count first.jumped first.fallen
        ++ (bytes_of count second.jumped second.fallen ++ drop (2 * count) bytes.old) }
{
    first.write(&mut bytes[..count]);
    second.write(&mut bytes[count..2 * count]);
}
