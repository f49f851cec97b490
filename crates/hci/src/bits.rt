// Bits of masks and of bit maps.
ghost use Rattle.std.specs.Prelude.{◌≡◌, Err};
ghost use Rattle.hci.specs.Bits.{MaskHas, number, with_bit};

// A 64-bit mask has no bit of 64 or more.
#[derive(Clone, Copy)]
pub enum MaskError {
    NoSuchBit,
}

// The question's number, which C gets.
impl From<MaskError> for u8 {
    ghost from_gives = { λ e n. n ≡ number (Err e) };

    fn from(_: MaskError) -> u8 {
        10
    }
}

// Whether a mask has a bit.
pub fn mask_has(mask: u64, bit: u32) -> Result<bool, MaskError>
    ensures { MaskHas mask bit result }
{
    if 64 <= bit {
        return Err(MaskError::NoSuchBit);
    }
    Ok((mask >> bit) % 2 == 1)
}

// Sets a bit of the map; past its end nothing changes.
pub fn set_bit(map: &mut [u8], bit: usize)
    ensures { map.new ≡ with_bit map.old bit }
{
    let i = bit / 8;
    if i < map.len() {
        map[i] |= 1 << (bit % 8);
    }
}
