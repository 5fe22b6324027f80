// A share of the board: 4,096 bytes, the example for option a of feature i in the 16 bytes from i × 256 + a × 16.
ghost use Rattle.std.specs.Prelude.{◌≡◌, ◌+◌, ◌*◌, ◌<◌, ◌≤◌, length, replicate};
ghost use Rattle.builds.specs.Lists.{put};

// Fills a share with 255: no example anywhere.
pub fn empty(share: &mut [u8])
    ensures { share.new ≡ replicate (length share.old) 255 }
{
    share.fill(255);
}

// Writes sixteen bytes over those that stand from a place on.
pub fn write_example(share: &mut [u8], place: usize, example: &[u8])
    requires { (length example.now ≡ 16) × (place + 16 ≤ length share.old) }
    ensures { share.new ≡ put share.old place example.now }
{
    share[place..place + 16].copy_from_slice(example);
}
