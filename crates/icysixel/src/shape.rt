//! The properties of an image that C receives: `icysixel_shape` of the header.

ghost use Rattle.std.specs.Prelude.{◌≡◌};
ghost use Rattle.icysixel.specs.Shape.{shape_of};

use icy_sixel::ReceivedImage;

/// The properties of an image, without its pixels.
#[repr(C)]
#[derive(Clone, Copy)]
pub struct Shape {
    pub width: usize,
    pub height: usize,
    pub drawn_height: usize,
    pub raster_width: usize,
    pub raster_height: usize,
    pub first_row: usize,
    pub bytes: usize,
    pub ignored: u64,
    pub pixel_width: u16,
    pub pixel_height: u16,
    pub p1: u8,
    pub p2: u8,
    pub is_complete: u8,
    pub is_empty: u8,
}

impl Shape {
    /// The properties of an image, of which the end was read or not.
    pub fn of(image: &ReceivedImage, is_complete: bool) -> Shape
        ensures { result ≡ shape_of image.now is_complete }
    {
        Shape {
            width: image.width,
            height: image.height,
            drawn_height: image.drawn_height,
            raster_width: image.raster_width,
            raster_height: image.raster_height,
            first_row: image.first_row,
            bytes: image.pixels.len(),
            ignored: image.ignored_commands,
            pixel_width: image.aspect_ratio.pan(),
            pixel_height: image.aspect_ratio.pad(),
            p1: image.aspect_ratio.to_p1_value(),
            p2: image.background_mode.to_p2_value(),
            is_complete: u8::from(is_complete),
            is_empty: u8::from(image.is_empty()),
        }
    }
}
