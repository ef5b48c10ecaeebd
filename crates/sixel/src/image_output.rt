//! The output of an image: in the program's own form, or as a PAM file of netpbm.

ghost use Rattle.std.specs.Prelude.{◌≡◌, None, IfOk, IfErr, string_bytes};
ghost use Rattle.sixel_base.specs.declared.error.SixelError.TheVariants.{OutOfMemory};
ghost use Rattle.icy_sixel.specs.ImageView.{image_value};
ghost use Rattle.sixel.specs.declared.fault.Fault.TheVariants.{Sixel};
ghost use Rattle.sixel.specs.Form.{image_form, image_line, pam_form, pam_header};
ghost use Rattle.sixel.specs.WorkOutput.{IsImageOutput, Serves};

use crate::fault::Fault;
use crate::write::write_parts;
use icy_sixel::SixelImage;
use std::alloc::Global;
use std::io::Write;

/// Writes an image in the program's own form: its first line, its pixels and a line end.
///
/// The line is formatted before anything is written.
pub fn write_image<O: Write>(alloc: Global, image: &SixelImage, output: &mut O) -> Result<(), Fault>
    ensures { Serves result (IsImageOutput image_form None (λ i. i ≡ image_value image.now))
        (O.contents output.old) (O.contents output.new) }
{
    let line = first_line(alloc, image)?;
    write_parts(output, &[line.as_bytes(), &image.pixels, b"\n"])
}

/// The line before an image's pixels: its sizes, and the P1 and P2 that it has.
fn first_line(alloc: Global, image: &SixelImage) -> Result<String, Fault>
    ensures line { IfOk result (λ line. string_bytes line ≡ image_line (image_value image.now)) }
    ensures refused { IfErr result (λ fault. fault ≡ Sixel OutOfMemory) }
{
    let p1 = image.aspect_ratio.to_p1_value();
    let p2 = image.background_mode.to_p2_value();
    let (width, height) = (image.width, image.height);
    Ok(format!(in alloc; "image {width} {height} {p1} {p2}\n")?)
}

/// Writes an image as a PAM file: its header and its pixels.
///
/// PAM has no pixel aspect ratio: a pixel is written once, even if it is shown higher than wide.
/// The header is formatted before anything is written.
pub fn write_pam<O: Write>(alloc: Global, image: &SixelImage, output: &mut O) -> Result<(), Fault>
    ensures { Serves result (IsImageOutput pam_form None (λ i. i ≡ image_value image.now))
        (O.contents output.old) (O.contents output.new) }
{
    let header = pam_header(alloc, image)?;
    write_parts(output, &[header.as_bytes(), &image.pixels])
}

/// The header of an image's PAM file, up to its pixels.
fn pam_header(alloc: Global, image: &SixelImage) -> Result<String, Fault>
    ensures header { IfOk result (λ text. string_bytes text ≡ pam_header (image_value image.now)) }
    ensures failed { IfErr result (λ fault. fault ≡ Sixel OutOfMemory) }
{
    let (width, height) = (image.width, image.height);
    Ok(format!(in alloc;
        "P7\nWIDTH {width}\nHEIGHT {height}\nDEPTH 4\nMAXVAL 255\nTUPLTYPE RGB_ALPHA\nENDHDR\n"
    )?)
}
