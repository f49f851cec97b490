// AES-128 (FIPS 197).
ghost use Rattle.std.specs.Prelude.{◌≡◌};
ghost use Rattle.aes.specs.Aes.{aes128};

// A block under a key; what comes out is written to out.
pub fn wegrulsta_encrypt(key: &[u8; 16], block: &[u8; 16], out: &mut [u8; 16])
    ensures { out.new ≡ aes128 key.now block.now }
{
    *out = aes::encrypt_128(*key, *block);
}
