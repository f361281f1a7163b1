// Fields of bytes in a slice: little-endian numbers, read and written, and a copy. Every function takes any slice and any
// place: what lies past the end reads as 0 and is not written.
#![tactic(auto)]

ghost use Rattle.std.specs.Prelude.{◌≡◌, ◌+◌, ◌≤◌, get_or, length, take, drop, replicate};
ghost use Rattle.wire.specs.Bytes.{le, number, number_at, put, are_same_bytes};

// How many bytes a u64 has.
const WIDEST: usize = 8;

// The byte at `at`, 0 past the end.
pub fn byte(s: &[u8], at: usize) -> u8
    ensures { result ≡ get_or s.now at 0 }
{
    s.get(at).copied().unwrap_or(0)
}

// What stands from `at` on.
fn rest(s: &[u8], at: usize) -> &[u8]
    ensures { result.now ≡ drop at s.now }
{
    &s[at.min(s.len())..]
}

// The N bytes from `at`, zeros in the place of those past the end. A packet in order never comes here: compiled by itself, so that the
// readers stay small enough to be compiled into their callers.
#[cold]
#[inline(never)]
#[tactic(auto, using(crate::proofs::Std::number_padded))]
fn padded<const N: usize>(s: &[u8], at: usize) -> [u8; N]
    ensures { number result ≡ number_at N at s.now }
{
    let there = rest(s, at);
    let mut bytes = [0; N];
    for (i, place) in bytes.iter_mut().enumerate() {
        *place = byte(there, i);
    }
    bytes
}

// The N bytes from `at`. Where all are there they are one load.
fn bytes_at<const N: usize>(s: &[u8], at: usize) -> [u8; N]
    ensures { number result ≡ number_at N at s.now }
{
    if at <= s.len()
        && let Some(whole) = s[at..].first_chunk::<N>()
    {
        return *whole;
    }
    padded(s, at)
}

// The numbers of two, four and eight bytes at `at`.
#[tactic(auto, using(crate::proofs::Std::read_2))]
pub fn u16_at(s: &[u8], at: usize) -> u16
    ensures { result ≡ number_at 2 at s.now }
{
    u16::from_le_bytes(bytes_at::<2>(s, at))
}

#[tactic(auto, using(crate::proofs::Std::read_4))]
pub fn u32_at(s: &[u8], at: usize) -> u32
    ensures { result ≡ number_at 4 at s.now }
{
    u32::from_le_bytes(bytes_at::<4>(s, at))
}

#[tactic(auto, using(crate::proofs::Std::read_8))]
pub fn u64_at(s: &[u8], at: usize) -> u64
    ensures { result ≡ number_at 8 at s.now }
{
    u64::from_le_bytes(bytes_at::<8>(s, at))
}

// Writes n zeros at `at`, as many of them as there is room for.
#[tactic(auto, using(crate::proofs::Std::zeros_room, crate::proofs::Buffer::put_out))]
fn put_zeros(out: &mut [u8], at: usize, n: usize)
    ensures { out.new ≡ put out.old at (replicate n 0) }
{
    if at < out.len() {
        let n = n.min(out.len() - at);
        out[at..at + n].fill(0);
    }
}

// Writes the n lowest bytes of x at `at`, the lowest first; past the eighth they are zeros.
#[tactic(auto, using(crate::proofs::Std::le_short, crate::proofs::Std::le_long))]
pub fn put_number(out: &mut [u8], at: usize, n: usize, x: u64)
    ensures { out.new ≡ put out.old at (le n x) }
{
    if WIDEST < n {
        put_zeros(out, at, n);
    }
    copy(out, at, part(&x.to_le_bytes(), 0, n));
}

// Bytes over as many others. By the byte, which is compiled to memcpy: `copy_from_slice` would want memmove of the C library.
fn overwrite(to: &mut [u8], from: &[u8])
    requires { length to.old ≡ length from.now }
    ensures { to.new ≡ from.now }
{
    for i in 0..to.len() {
        to[i] = from[i];
    }
}

// The bytes of src that there is room for, which are not all. No packet that is written comes here: compiled by itself, as `padded` is.
#[cold]
#[inline(never)]
#[tactic(auto, using(crate::proofs::Buffer::put_out))]
fn copy_partly(out: &mut [u8], at: usize, src: &[u8])
    requires { length out.old ≤ at + length src.now }
    ensures { out.new ≡ put out.old at src.now }
{
    if at < out.len() {
        let room = out.len() - at;
        overwrite(&mut out[at..], &src[..room]);
    }
}

// Writes the bytes of src at `at`, as many of them as there is room for. Where all fit, their number is src's own: one that a caller gives
// as a constant is written by one store.
pub fn copy(out: &mut [u8], at: usize, src: &[u8])
    ensures { out.new ≡ put out.old at src.now }
{
    if src.len() <= out.len() && at <= out.len() - src.len() {
        overwrite(&mut out[at..at + src.len()], src);
    } else {
        copy_partly(out, at, src);
    }
}

// The n bytes from `at`, as many of them as there are.
pub fn part(s: &[u8], at: usize, n: usize) -> &[u8]
    ensures { result.now ≡ take n (drop at s.now) }
{
    let tail = rest(s, at);
    &tail[..n.min(tail.len())]
}

// Whether a and b hold the same bytes. The last are looked at first: most that differ do so there. Then each byte is looked at, so
// that the loop has one end and is compiled to wide comparisons: `==` is slower on long slices, and a zip on those of a point's length.
pub fn same(a: &[u8], b: &[u8]) -> bool
    ensures { result ≡ are_same_bytes a.now b.now }
{
    if a.len() != b.len() || a.last() != b.last() {
        return false;
    }
    let mut so_far = true;
    for (i, x) in a.iter().enumerate() {
        so_far &= *x == b[i];
    }
    so_far
}
