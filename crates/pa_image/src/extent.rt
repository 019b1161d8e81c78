ghost use Rattle.std.specs.Prelude.{◌≡◌, ◌↔◌, IsTrue};
ghost use Rattle.pa_macho.specs.Layout.{Ordered, places_of};
ghost use Rattle.pa_image.specs.Bytes.{header_of};
ghost use Rattle.pa_image.specs.Small.{IsSmall};
ghost use Rattle.pa_image.specs.Writing.{IsLegal};

use crate::image::Image;
use crate::sizes::header;
use pa_macho::Places;

/// The most bytes of a small image, 16 MiB.
const SMALL_LIMIT: u128 = 0x100_0000;

/// Where the parts of the image begin and end, as offsets in its file and from its first byte in memory.
pub fn places(image: &Image) -> Places
    requires { IsLegal image.now }
    ensures value { result ≡ places_of (header_of image.now) }
    ensures order { Ordered result }
{
    header(image).places()
}

/// The image's bytes are at most 16 MiB, so that it can be loaded.
pub fn is_small(image: &Image) -> bool
    requires { IsLegal image.now }
    ensures { IsTrue result ↔ IsSmall image.now }
{
    places(image).end <= SMALL_LIMIT
}
