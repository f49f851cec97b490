// AES-128 (FIPS 197), for C.
ghost use Rattle.std.specs.Prelude.{◌≡◌};
ghost use Rattle.aes.specs.Aes.{aes128};

// A block under a key; what comes out is written to out.
#[unsafe(no_mangle)]
pub extern "C" fn wegrulsta_encrypt(key: &[u8; 16], block: &[u8; 16], out: &mut [u8; 16])
    ensures { out.new ≡ aes128 key.now block.now }
{
    capi::wegrulsta_encrypt(key, block, out)
}
