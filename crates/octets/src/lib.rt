// Octets written into a lent buffer, moved within it, and octets and numbers read from it. The layers above call these once
// they know that what they write or read is there, so each requires it; contracts cite `specs/Octets.antt`.
#![tactic(auto)]

ghost use Rattle.std.specs.Prelude.{◌≡◌, ◌++◌, ◌+◌, ◌≤◌, length, take, drop};
ghost use Rattle.octets.specs.Octets.{Put, number_at};

// Writes all of src into out from index at, and returns the index after it.
#[tactic(auto, unfolding(crate::specs::Octets::splice))]
pub fn put(out: &mut [u8], at: usize, src: &[u8]) -> usize
    requires { at + length src.now ≤ length out.old }
    ensures { Put out.old at src.now result out.new }
{
    let end = at + src.len();
    out[at..end].copy_from_slice(src);
    end
}

// The same for octets that a caller in C may lend, of any number, one by one: of `copy_from_slice` the compiler makes a call of
// `memmove` there, which `libcapi.a` would need from outside.
pub fn put_lent(out: &mut [u8], at: usize, src: &[u8]) -> usize
    requires { at + length src.now ≤ length out.old }
    ensures { Put out.old at src.now result out.new }
{
    for j in 0..src.len() {
        out[at + j] = src[j];
    }
    at + src.len()
}

// Writes head and then body.
pub fn put_two(out: &mut [u8], at: usize, head: &[u8], body: &[u8]) -> usize
    requires { at + length head.now + length body.now ≤ length out.old }
    ensures { Put out.old at (head.now ++ body.now) result out.new }
{
    let b = put(out, at, head);
    put_lent(out, b, body)
}

// Writes the n octets that stand from index from on over the front of the same buffer, and returns n.
#[tactic(auto, unfolding(crate::specs::Octets::splice))]
pub fn move_to_front(out: &mut [u8], from: usize, n: usize) -> usize
    requires { from + n ≤ length out.old }
    ensures { Put out.old 0 (take n (drop from out.old)) result out.new }
{
    out.copy_within(from..from + n, 0);
    n
}

// The N octets that stand from index at on. Copied: by `first_chunk` the test of its `Option` stays in the code, and question 3
// about 31 entries takes 507 instructions for 414.
pub fn octets_at<const N: usize>(src: &[u8], at: usize) -> [u8; N]
    requires { at + N ≤ length src.now }
    ensures { result ≡ take N (drop at src.now) }
{
    let mut octets = [0; N];
    octets.copy_from_slice(&src[at..at + N]);
    octets
}

// The 16-bit number at index at, low octet first.
#[tactic(auto, using(crate::proofs::Numbers::word_taken))]
pub fn word_at(src: &[u8], at: usize) -> u16
    requires { at + 2 ≤ length src.now }
    ensures { result ≡ number_at 2 src.now at }
{
    u16::from_le_bytes(octets_at(src, at))
}
