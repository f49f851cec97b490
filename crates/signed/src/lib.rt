// Signed numbers of HCI parameters: read from two octets, compared on both sides of zero. For the command on path compensations;
// contracts cite `specs/Signed.antt`, whose `octet_of` and `lesser_signed` are the library's `cast_unsigned` and `min`.
#![tactic(auto)]

ghost use Rattle.std.specs.Prelude.{◌≡◌, ◌+◌, ◌≤◌, length, pos, neg_ℤ};
ghost use Rattle.octets.specs.Octets.{word};
ghost use Rattle.signed.specs.Signed.{signed_word, between};

// The two octets at index at, low first, as a signed number.
pub fn signed_word_at(p: &[u8], at: usize) -> i16
    requires { at + 2 ≤ length p.now }
    ensures { result ≡ signed_word (word p.now at) }
{
    octets::word_at(p, at).cast_signed()
}

// Whether a path compensation is from -1280 to 1280.
pub fn compensation_allowed(x: i16) -> bool
    ensures { result ≡ between (neg_ℤ (pos 1280)) (pos 1280) x }
{
    (-1280..=1280).contains(&x)
}
