// A part of some bytes, told by where it begins and how long it is.
ghost use Rattle.std.specs.Prelude.{◌≡◌, ◌+◌, ◌≤◌, length, take, drop};

#[derive(Clone, Copy)]
pub struct Span {
    pub start: usize,
    pub len: usize,
}

impl Span {
    // The part itself, where it lies.
    pub fn of<'a>(self, bytes: &'a [u8]) -> &'a [u8]
        requires { self.start + self.len ≤ length bytes.now }
        ensures { result.now ≡ take self.len (drop self.start bytes.now) }
    {
        let end = self.start + self.len;
        &bytes[self.start..end]
    }
}
