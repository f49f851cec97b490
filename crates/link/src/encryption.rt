// What the host has the controller compute: LE Encrypt and LE Rand.
ghost use Rattle.std.specs.Prelude.{◌≡◌, reverse, ◌+◌, ◌≤◌, length, take, drop};
ghost use Rattle.commands.specs.Outcome.{Answers};
ghost use Rattle.commands.specs.Link.{encrypt as encrypt_of};
ghost use Rattle.commands.specs.Link.{rand as rand_of};

use answers::Answer;

// Sixteen octets from index at, the last first.
fn reversed(p: &[u8], at: usize) -> [u8; 16]
    requires { at + 16 ≤ length p.now }
    ensures { result ≡ reverse (take 16 (drop at p.now)) }
{
    let mut octets = octets::octets_at(p, at);
    octets.reverse();
    octets
}

// LE Encrypt (section 7.8.22): the last octet of key and block is FIPS 197's first, and the result goes back so.
#[tactic(auto, unfolding(commands::specs::Link::encrypt))]
pub fn encrypt(p: &[u8; 32]) -> Answer
    ensures { Answers (encrypt_of p.now) result }
{
    let key = reversed(p, 0);
    let block = reversed(p, 16);
    let mut out = aes::encrypt_128(key, block);
    out.reverse();
    commands::succeeded(&out)
}

// LE Rand (section 7.8.23): the eight random octets handed in.
#[tactic(auto, unfolding(commands::specs::Link::rand))]
pub fn rand(random: u64) -> Answer
    ensures { Answers (rand_of random) result }
{
    commands::succeeded(&random.to_le_bytes())
}
