// Whether the entries of a list differ, for question 3, which every call that takes a state asks about both lists. Entries
// are told apart by marks: the lowest nine bits of an address are marked where they are met, and only an entry whose mark was met
// already is compared with those before it.
ghost use Rattle.std.specs.Prelude.{◌≡◌, ◌≤◌, length};
ghost use Rattle.lists.specs.Lists.{any};
ghost use Rattle.filters.specs.Filters.{has_identity, identities_differ};
ghost use Rattle.filters.specs.Keys.{low_of};

use crate::keys::key_of;
use crate::resolving::identity;

// Whether no two entries have the same type and address.
pub fn entries_differ<const W: usize>(entries: &[[u8; W]]) -> bool
    requires { 7 ≤ W }
    ensures { result ≡ identities_differ entries.now }
{
    let mut met = [false; 512];
    for (i, entry) in entries.iter().enumerate() {
        // By `as`: `usize` has no `From` of a u32.
        let mark = (low_of(entry) % 512) as usize;
        if met[mark] && stands_before(&entries[..i], identity(entry)) {
            return false;
        }
        met[mark] = true;
    }
    true
}

// The lowest four octets of an entry's address, as a number.
#[tactic(auto, unfolding(crate::specs::Keys::low_of))]
fn low_of(entry: &[u8]) -> u32
    requires { 7 ≤ length entry.now }
    ensures { result ≡ low_of entry.now }
{
    u32::from_le_bytes(octets::octets_at(entry, 1))
}

// Whether one of the entries before has this type and address. The four octets are compared first, since they nearly always
// differ: by `place_of`, which compares all seven, a call with full lists takes 86 to 146 instructions more.
fn stands_before<const W: usize>(before: &[[u8; W]], identity: [u8; 7]) -> bool
    requires { 7 ≤ W }
    ensures { result ≡ any (has_identity identity) before.now }
{
    let low = low_of(&identity);
    let key = key_of(&identity);
    for other in before {
        if low_of(other) == low && key_of(other) == key {
            return true;
        }
    }
    false
}
