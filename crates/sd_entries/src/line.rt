//! The pieces of a line, put one behind another into room that is there from the start, so that no piece asks for memory.
//! Each function puts a text from `from` on and returns where the text ends.

ghost use Rattle.std.specs.Prelude.{◌≡◌, ◌+◌, ◌≤◌, ◌++◌, ◌∷◌, [], ◌%◌, ◌<◌, length, take, decimal};

use itoa::Buffer;

/// For how many bytes a line has room. The longest line of an entry has 403.
pub(crate) const ROOM: usize = 512;

/// The room for a line.
pub(crate) type Line = [u8; ROOM];

/// The bytes.
#[inline(always)]
pub(crate) fn put_bytes(bytes: &[u8], line: &mut Line, from: usize) -> usize
    requires { from + length bytes.now ≤ ROOM }
    ensures text { take result line.new ≡ take from line.old ++ bytes.now }
    ensures end { result ≡ from + length bytes.now }
{
    let end = from + bytes.len();
    line[from..end].copy_from_slice(bytes);
    end
}

/// So many bytes. The number is known where the code is made, so that they are moved at once.
#[inline(always)]
fn put_array<const N: usize>(bytes: &[u8], line: &mut Line, from: usize) -> usize
    requires long { length bytes.now ≡ N }
    requires room { from + N ≤ ROOM }
    ensures text { take result line.new ≡ take from line.old ++ bytes.now }
    ensures end { result ≡ from + length bytes.now }
{
    let end = from + N;
    line[from..end].copy_from_slice(&bytes[..N]);
    end
}

/// The bytes of a name, most of which have two to four.
#[inline(always)]
pub(crate) fn put_name(name: &[u8], line: &mut Line, from: usize) -> usize
    requires { from + length name.now ≤ ROOM }
    ensures text { take result line.new ≡ take from line.old ++ name.now }
    ensures end { result ≡ from + length name.now }
{
    match name.len() {
        2 => put_array::<2>(name, line, from),
        3 => put_array::<3>(name, line, from),
        4 => put_array::<4>(name, line, from),
        _ => put_bytes(name, line, from),
    }
}

/// A byte.
#[inline(always)]
pub(crate) fn put_byte(byte: u8, line: &mut Line, from: usize) -> usize
    requires { from + 1 ≤ ROOM }
    ensures text { take result line.new ≡ take from line.old ++ byte ∷ [] }
    ensures end { result ≡ from + 1 }
{
    line[from] = byte;
    from + 1
}

/// Two bytes.
#[inline(always)]
pub(crate) fn put_two(first: u8, second: u8, line: &mut Line, from: usize) -> usize
    requires { from + 2 ≤ ROOM }
    ensures text { take result line.new ≡ take from line.old ++ first ∷ second ∷ [] }
    ensures end { result ≡ from + 2 }
{
    let from = put_byte(first, line, from);
    put_byte(second, line, from)
}

/// The last digit of a number.
#[inline(always)]
fn put_last_digit(n: u8, line: &mut Line, from: usize) -> usize
    requires { from + 1 ≤ ROOM }
    ensures text { take result line.new ≡ take from line.old ++ (48 + n % 10) ∷ [] }
    ensures end { result ≡ from + 1 }
{
    put_byte(b'0' + n % 10, line, from)
}

/// A number of one or two digits.
#[inline(always)]
fn put_pair(n: u8, line: &mut Line, from: usize) -> usize
    requires small { n < 100 }
    requires room { from + 2 ≤ ROOM }
    ensures text { take result line.new ≡ take from line.old ++ decimal n }
    ensures within { result ≤ from + 2 }
{
    if n < 10 {
        return put_last_digit(n, line, from);
    }
    let tens = put_last_digit(n / 10, line, from);
    put_last_digit(n, line, tens)
}

/// The decimal digits of a small number.
#[inline(always)]
pub(crate) fn put_small(n: u8, line: &mut Line, from: usize) -> usize
    requires { from + 3 ≤ ROOM }
    ensures text { take result line.new ≡ take from line.old ++ decimal n }
    ensures within { result ≤ from + 3 }
{
    if n < 10 {
        return put_last_digit(n, line, from);
    }
    if n < 100 {
        return put_pair(n, line, from);
    }
    let tens = put_pair(n / 10, line, from);
    put_last_digit(n, line, tens)
}

#[inline(never)]
fn put_large(n: u64, line: &mut Line, from: usize) -> usize
    requires { from + 20 ≤ ROOM }
    ensures text { take result line.new ≡ take from line.old ++ decimal n }
    ensures within { result ≤ from + 20 }
{
    let mut buffer = Buffer::new();
    put_bytes(buffer.format(n).as_bytes(), line, from)
}

/// The decimal digits of a number.
#[inline(always)]
pub(crate) fn put_number(n: u64, line: &mut Line, from: usize) -> usize
    requires { from + 20 ≤ ROOM }
    ensures text { take result line.new ≡ take from line.old ++ decimal n }
    ensures within { result ≤ from + 20 }
{
    if n < 100 {
        return put_pair(n as u8, line, from);
    }
    put_large(n, line, from)
}
