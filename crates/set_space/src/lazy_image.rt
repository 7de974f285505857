ghost use Rattle.std.specs.Prelude.{◌≡◌, length};
ghost use Rattle.set_space.specs.Staying.{staying};

mod changes;
mod copies;
mod state;

use pipapo_image::SetImage;

/// A set by its image. An element that left the set may stay in the image until the rule numbers
/// close up. A deleted element has the expiry 0, so it is live at no moment.
#[derive(Drop)]
pub(crate) struct LazyImage {
    pub(crate) image: SetImage,
    /// Elements that are expired at this moment, in milliseconds, have left the set. They may still
    /// be in the image. `None` if no element has left.
    pub(crate) passed: Option<u64>,
    /// How many elements the set has. The others of the image left.
    pub(crate) count: u64,
    pub(crate) ghost counted: { count ≡ length (staying passed image).elements },
}
