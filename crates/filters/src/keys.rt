// A list's entries, told apart by their type and address, the first seven octets, which are read as one number: for both lists.
ghost use Rattle.std.specs.Prelude.{◌≡◌, ◌-◌, ◌*◌, ◌≤◌, ◌<◌, length, position, IfSome};
ghost use Rattle.lists.specs.Lists.{chunks};
ghost use Rattle.filters.specs.Filters.{has_identity};
ghost use Rattle.filters.specs.Keys.{key_of, IsEntry, without_place};

// The number of an entry's first seven octets, lowest first. Equal numbers are of equal octets only if each octet is below 256. A
// proof knows that of one entry by its type, but not of the entries of a slice, so the clause `octets` says it of each that is
// read.
#[tactic(auto, unfolding(crate::specs::Keys::key_of))]
pub fn key_of<const W: usize>(entry: &[u8; W]) -> u64
    requires { 7 ≤ W }
    ensures number { result ≡ key_of entry.now }
    ensures octets { IsEntry entry.now }
{
    let [a, b, c, d, e, f, g]: [u8; 7] = octets::octets_at(entry, 0);
    u64::from_le_bytes([a, b, c, d, e, f, g, 0])
}

// The place of the first entry with this type and address.
pub fn place_of<const W: usize>(entries: &[[u8; W]], identity: [u8; 7]) -> Option<usize>
    requires { 7 ≤ W }
    ensures found { result ≡ position (has_identity identity) entries.now }
    ensures within { IfSome result (λ place. place < length entries.now) }
{
    let key = key_of(&identity);
    entries.iter().map(key_of).position(|k| k == key)
}

// Takes the entry at a place out of a flat list: those behind it move up. By octets, as an entry is added and a mode set too:
// what is written through `as_chunks_mut` is lost to a proof, for its contract says nothing of what the octets are at the end.
pub fn cut(octets: &mut [u8], width: usize, n: usize, place: usize)
    requires { (n * width ≤ length octets.old) × (place < n) }
    ensures { chunks width (n - 1) octets.new ≡ without_place place (chunks width n octets.old) }
{
    let at = place * width;
    let rest = (n - place - 1) * width;
    octets::move_to_front(&mut octets[at..], width, rest);
}
