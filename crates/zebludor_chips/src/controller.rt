//! The Intel 8259A, alone and in 8086 mode.
ghost use Rattle.std.specs.Prelude.{◌≡◌, ◌%◌, if◌then◌else◌};
ghost use Rattle.pic8259.specs.PicNumbers.{flag_of, pic_of};
ghost use Rattle.pic8259.specs.Pic.{power_on, after_acknowledge, after_line, after_read, after_write, byte_at, is_requesting, vector};
ghost use Rattle.pit8253.specs.PitNumbers.{line_of};

use crate::levels::line_of;
use pic8259::controller::Pic;
use pic8259::image::PicImage;

/// Makes `*pic` a controller at power-on, for a bench in C: every line low, nothing masked or in service, edge mode,
/// no initialisation sequence begun. The image may hold any bytes before.
#[unsafe(no_mangle)]
pub extern "C" fn zebludor_pic_power_on(pic: &mut PicImage)
    ensures { pic_of pic.new ≡ power_on }
{
    *pic = Pic::new().image();
}

/// Sets the request line of level `n` modulo 8, as a bench in C drives it: low if `level` is 0, else high.
#[unsafe(no_mangle)]
pub extern "C" fn zebludor_pic_set_line(pic: &mut PicImage, n: u8, level: u8)
    ensures { pic_of pic.new ≡ after_line (pic_of pic.old) (n % 8) (line_of level) }
{
    let mut chip = Pic::from_image(pic);
    chip.set_line(n % 8, line_of(level));
    *pic = chip.image();
}

/// Answers a bench's read at address line A0. A pending poll is answered at either port, and takes a level as an
/// acknowledge does; else A0 = 1 gives the mask, and A0 = 0 the requests or the levels in service.
#[unsafe(no_mangle)]
pub extern "C" fn zebludor_pic_read(pic: &mut PicImage, a0: u8) -> u8
    ensures value { result ≡ byte_at (pic_of pic.old) (flag_of a0) }
    ensures state { pic_of pic.new ≡ after_read (pic_of pic.old) }
{
    let mut chip = Pic::from_image(pic);
    let value = chip.read(a0 != 0);
    *pic = chip.image();
    value
}

/// Does a bench's write at address line A0: an initialisation or operation command word, or at A0 = 1 the mask.
#[unsafe(no_mangle)]
pub extern "C" fn zebludor_pic_write(pic: &mut PicImage, a0: u8, value: u8)
    ensures { pic_of pic.new ≡ after_write (pic_of pic.old) (flag_of a0) value }
{
    let mut chip = Pic::from_image(pic);
    chip.write(a0 != 0, value);
    *pic = chip.image();
}

/// Whether the interrupt output INT is high, 0 or 1, for a bench to compare or to give its processor: an acknowledge
/// would take a level.
#[unsafe(no_mangle)]
pub extern "C" fn zebludor_pic_request(pic: &PicImage) -> u8
    ensures { result ≡ (if is_requesting (pic_of pic.now) then 1 else 0) }
{
    if Pic::from_image(pic).request() { 1 } else { 0 }
}

/// Answers a bench's interrupt acknowledge, both pulses of INTA at once: takes a level and gives its vector, or that
/// of level 7 if there is none to take.
#[unsafe(no_mangle)]
pub extern "C" fn zebludor_pic_acknowledge(pic: &mut PicImage) -> u8
    ensures vector { result ≡ vector (pic_of pic.old) }
    ensures state { pic_of pic.new ≡ after_acknowledge (pic_of pic.old) }
{
    let mut chip = Pic::from_image(pic);
    let vector = chip.acknowledge();
    *pic = chip.image();
    vector
}
