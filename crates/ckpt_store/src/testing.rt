//! What callers may test before they ask a store for it.
ghost use Rattle.std.specs.Prelude.{◌↔◌, IsTrue};
ghost use Rattle.ckpt_store.specs.Spelling.{IsLike};

use ckpt_codec::is_image;
use record::Image;

/// Whether an image may be written beside this permanent one: it has the same processes, numbers of variables, and ends
/// of channels with the same roles.
pub fn is_like(permanent: &Image, image: &Image) -> bool
    ensures { IsTrue result ↔ IsLike permanent.now image.now }
{
    is_image(Some(permanent), image)
}
