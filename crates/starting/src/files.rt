// What the system's answers are taken for. A file that can't be opened or read to its end is unreadable.
ghost use Rattle.std.specs.Prelude.{◌≡◌, length};
ghost use Rattle.starting.specs.code.Reads.{file_of, size_input, input_of, is_end, front_of};

// What reading once gives. Kept: an end is no failure and no bytes, and a `Result` of an `Option` would name none of the three.
#[derive(Clone, Copy)]
pub enum Input {
    Bytes(usize),
    End,
    Failed,
}

// A number that no run counts down: nothing says that a file ends, and a proved loop has to. It is counter_most divided by
// chunk_most, the limits of C5 and C2: so many chunks have as many bytes at most as a counter may count.
pub const TURNS: u64 = 70368744177664;

// What an answer of `open` comes to: below 0 it is no file's number.
pub fn file_of(fd: i32) -> Option<i32>
    ensures { result ≡ file_of fd }
{
    if fd < 0 {
        return None;
    }
    Some(fd)
}

// No bytes are the file's end.
#[tactic(auto, unfolding(crate::specs::code::Reads::size_input))]
fn size_input(size: usize) -> Input
    ensures { result ≡ size_input size }
{
    if size == 0 {
        return Input::End;
    }
    Input::Bytes(size)
}

// What an answer of `read` comes to: below 0 it failed, and 0 is the file's end.
pub fn input_of(got: isize, buffer: &[u8]) -> Input
    ensures { result ≡ input_of got (length buffer.now) }
{
    if got < 0 {
        return Input::Failed;
    }
    let size = got as usize;
    if size < buffer.len() {
        return size_input(size);
    }
    size_input(buffer.len())
}

// Whether a file was read to its end, by what the last read gave.
#[tactic(auto, unfolding(crate::specs::code::Reads::is_end))]
pub fn is_end(last: Input) -> bool
    ensures { result ≡ is_end last }
{
    match last {
        Input::End => true,
        Input::Failed => false,
        Input::Bytes(_) => false,
    }
}

// Of a file that can't be read to its end nothing is kept.
#[tactic(auto, unfolding(crate::specs::code::Reads::front_of))]
pub fn front_of(size: usize, is_whole: bool) -> Option<usize>
    ensures { result ≡ front_of size is_whole }
{
    if is_whole {
        return Some(size);
    }
    None
}
