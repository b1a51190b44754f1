//! Laws about the images of tapes.

ghost use Rattle.std.specs.Prelude.{◌≡◌, ◌++◌, ℕ, List};
ghost use Rattle.std.specs.Option.{option_or};
ghost use Rattle.m11_base.specs.Devices.{Bytes};
ghost use Rattle.m11_obj_blocks.specs.Tapes.{IsTape};
ghost use Rattle.m11_cpu_laws.specs.Image.{Image, byte_of};
ghost use Rattle.m11_cpu_laws.specs.Tapes.{IsTapeOf, image_of_blocks, transfer_address};

/// Later blocks overwrite earlier ones: the byte at an address is that of the later blocks, or, if they have none there, that of the
/// earlier ones.
pub fn later_blocks_count()
    ensures { (blocks later : List (ℕ × Bytes)) (address : ℕ)
        → byte_of (blocks ++ later) address ≡ option_or (byte_of later address) (byte_of blocks address) }
{}

/// A tape has exactly one list of blocks and one start. It is a tape of the image that these make, and of no image with another
/// byte at some address or another transfer address.
pub fn tapes_have_one_image()
    ensures reading { (tape : Bytes) (blocks other_blocks : List (ℕ × Bytes)) (start other_start : ℕ)
        → IsTape blocks start tape → IsTape other_blocks other_start tape
        → (other_blocks ≡ blocks) × (other_start ≡ start) }
    ensures image { (tape : Bytes) (blocks : List (ℕ × Bytes)) (start : ℕ) → IsTape blocks start tape
        → IsTapeOf (image_of_blocks blocks start) tape }
    ensures no_other { (tape : Bytes) (image other : Image) → IsTapeOf image tape → IsTapeOf other tape
        → ((address : ℕ) → other.byte address ≡ image.byte address)
        × (transfer_address other ≡ transfer_address image) }
{}
