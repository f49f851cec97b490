// The resolving list (Core Vol 4 Part E sections 7.8.38 to 7.8.40 and 7.8.77): identities of a type and an address,
// each with its privacy mode behind it, oldest first. Adding one is `position`, then the profile's size, then `push`.
ghost use Rattle.std.specs.Prelude.{◌≡◌, [], ◌∷◌, ◌++◌, ◌≤◌, ◌<◌, length, take, position};
ghost use Rattle.lists.specs.Lists.{without, update_first};
ghost use Rattle.filters.specs.Filters.{resolving_entries, has_identity, new_entry, with_mode, identities_differ};

use crate::differ::entries_differ;
use crate::keys::{cut, place_of};

#[repr(C)]
#[derive(Clone, Copy)]
pub struct ResolvingList {
    pub octets: [u8; 128],
    pub count: usize,
}

impl ResolvingList {
    // The empty list.
    #[tactic(auto, unfolding(lists::specs::Lists::chunks))]
    pub fn new() -> ResolvingList
        ensures { resolving_entries result ≡ [] }
    {
        ResolvingList {
            octets: [0u8; 128],
            count: 0,
        }
    }

    // The entries, oldest first.
    pub fn entries(&self) -> &[[u8; 8]]
        requires { self.now.count ≤ 16 }
        ensures list { result.now ≡ resolving_entries self.now }
        ensures count { length result.now ≡ self.now.count }
    {
        &self.octets.as_chunks().0[..self.count]
    }

    // The place of the entry with this identity.
    pub fn position(self, identity: [u8; 7]) -> Option<usize>
        requires { self.count ≤ 16 }
        ensures { result ≡ position (has_identity identity) (resolving_entries self) }
    {
        place_of(self.entries(), identity)
    }

    // Appends an identity with mode 0.
    pub fn push(self, identity: [u8; 7]) -> ResolvingList
        requires { self.count < 16 }
        ensures { resolving_entries result ≡ resolving_entries self ++ (new_entry identity ∷ []) }
    {
        let mut octets = self.octets;
        let n = self.count;
        octets::put_two(&mut octets, n * 8, &identity, &[0]);
        ResolvingList {
            octets,
            count: n + 1,
        }
    }

    // Removes the entry with this identity.
    pub fn remove(self, identity: [u8; 7]) -> ResolvingList
        requires { self.count ≤ 16 }
        ensures { resolving_entries result ≡ without (has_identity identity) (resolving_entries self) }
    {
        let mut octets = self.octets;
        let n = self.count;
        // Here and in `set_mode` not by `entries`: the list, borrowed, is copied once more, at 32 to 41 instructions.
        let Some(place) = place_of(&octets.as_chunks::<8>().0[..n], identity) else {
            return self;
        };
        cut(&mut octets, 8, n, place);
        ResolvingList {
            octets,
            count: n - 1,
        }
    }

    // Sets the mode of the entry with this identity.
    pub fn set_mode(self, identity: [u8; 7], mode: u8) -> ResolvingList
        requires { self.count ≤ 16 }
        ensures { resolving_entries result ≡ update_first (has_identity identity) (with_mode mode) (resolving_entries self) }
    {
        let mut octets = self.octets;
        let n = self.count;
        let Some(place) = place_of(&octets.as_chunks::<8>().0[..n], identity) else {
            return self;
        };
        octets[place * 8 + 7] = mode;
        ResolvingList { octets, count: n }
    }
}

// The type and address that a command's parameters begin with.
pub fn identity(p: &[u8]) -> [u8; 7]
    requires { 7 ≤ length p.now }
    ensures { result ≡ take 7 p.now }
{
    octets::octets_at(p, 0)
}

// Whether all identities differ (question 3).
pub fn identities_differ(list: ResolvingList) -> bool
    requires { list.count ≤ 16 }
    ensures { result ≡ identities_differ (resolving_entries list) }
{
    list.count < 2 || entries_differ(list.entries())
}
