// Framing: what the bytes not yet read begin with ("A whole stream under the rules").
ghost use Rattle.std.specs.Prelude.{◌≡◌, ◌≤◌, ◌<◌, ◌^◌, length};
ghost use Rattle.wire.specs.Request.{request_least, request_length};
ghost use Rattle.stream.specs.Frame.{legal_start, oversized, next};
ghost use Rattle.stream.specs.code.Framed.{frame_of};

use wire::header::{CONTENT_MOST, HEADER_LEAST, MAGIC, header_length};
use wire::number::{read_u16, read_u32};

// The most that H and A may be.
pub const HEADER_MOST: u16 = 64;

pub const AUTH_MOST: u16 = 256;

// What bytes begin with; a skipped request has its header's length and how many bytes are missing.
// Kept: four things that the rules tell apart, none of them an error of the reader.
#[derive(Clone, Copy)]
pub enum Frame {
    Unfinished,
    BadStart,
    Skipped { header: usize, missing: u64 },
    Whole(usize),
}

// Whether magic and H of six bytes or more are good.
#[tactic(auto, unfolding(crate::specs::Frame::legal_start))]
pub fn is_legal_start(bytes: &[u8]) -> bool
    requires { 6 ≤ length bytes.now }
    ensures { result ≡ legal_start bytes.now }
{
    let size = read_u16(bytes, 4);
    read_u32(bytes, 0) == MAGIC && (HEADER_LEAST..=HEADER_MOST).contains(&size)
}

// Whether C or A of a whole header is too large.
#[tactic(auto, unfolding(crate::specs::Frame::oversized))]
pub fn is_oversized(bytes: &[u8]) -> bool
    requires { request_least ≤ length bytes.now }
    ensures { result ≡ oversized bytes.now }
{
    CONTENT_MOST < read_u32(bytes, 20) || AUTH_MOST < read_u16(bytes, 24)
}

// How long the request of a whole header is.
pub fn request_length(bytes: &[u8]) -> u64
    requires { request_least ≤ length bytes.now }
    ensures { (result ≡ request_length bytes.now) × (result < 2 ^ 40) }
{
    let size = u64::from(read_u16(bytes, 4));
    let content = u64::from(read_u32(bytes, 20));
    let auth = u64::from(read_u16(bytes, 24));
    6 + size + (content + auth)
}

pub fn read_frame(bytes: &[u8]) -> Frame
    ensures { result ≡ frame_of (next bytes.now) }
{
    if bytes.len() < 6 {
        return Frame::Unfinished;
    }
    if !is_legal_start(bytes) {
        return Frame::BadStart;
    }
    let header = header_length(bytes);
    if bytes.len() < header {
        return Frame::Unfinished;
    }
    let size = request_length(bytes) as usize;
    if size <= bytes.len() {
        return Frame::Whole(size);
    }
    if is_oversized(bytes) {
        return Frame::Skipped {
            header,
            missing: (size - bytes.len()) as u64,
        };
    }
    Frame::Unfinished
}
