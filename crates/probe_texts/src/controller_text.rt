//! The interrupt controller as text.
ghost use Rattle.pic8259.specs.AskingLevels.{requests};
ghost use Rattle.std.specs.Prelude.{◌≡◌, ◌++◌, OnOk, if◌then◌else◌, not, slice_index};
ghost use Rattle.std.specs.String.{string_bytes};
ghost use Rattle.pic8259.specs.PicNumbers.{expected_of, flag_of, pic_of};
ghost use Rattle.pic8259.specs.Levels.{byte_of};
ghost use Rattle.pic8259.specs.Pic.{is_requesting, vector};
ghost use Rattle.probe_texts.specs.Controller.{awaited_text, controller_kept, controller_line, controller_modes, controller_output, controller_reads, controller_registers};

use crate::shown::{digit, flag_digit};
use board_types::digits::HexByte;
use pic8259::Pic;
use pic8259::image::PicImage;
use std::alloc::AllocError;

/// Adds the interrupt controller's line to the answer to `chips`, by its image: its request lines and registers; the
/// level of lowest priority, its output INT, the vector that an acknowledge would give, and the word that it awaits; its
/// modes; what decides its reads; and what else it keeps.
#[tactic(auto, using(crate::proofs::Registers::byte_of_set, crate::proofs::Registers::last_of_order), unfolding(crate::specs::Controller::controller_line, pic8259::specs::PicNumbers::pic_of))]
pub fn push_controller(text: &mut String, image: &PicImage) -> Result<(), AllocError>
    ensures { OnOk result (string_bytes text.new ≡ string_bytes text.old ++ controller_line (pic_of image.now)) }
{
    let ir = HexByte(image.high);
    let irr = HexByte(request_register(image));
    let isr = HexByte(image.served);
    let imr = HexByte(image.masked);
    write!(text, "controller IR {ir} IRR {irr} ISR {isr} IMR {imr}")?;
    let lowest = image.lowest % 8;
    let int = digit(Pic::from_image(image).request());
    let vector = HexByte(Pic::from_image(image).acknowledge());
    let awaited = awaited(image);
    write!(
        text,
        " lowest {lowest} INT {int} vector {vector} awaits {awaited}"
    )?;
    let ltim = flag_digit(image.is_level_triggered);
    let upm = flag_digit(image.is_8086);
    let aeoi = flag_digit(image.auto_end);
    let rotates = flag_digit(image.rotates);
    write!(text, " LTIM {ltim} uPM {upm} AEOI {aeoi} rotates {rotates}")?;
    let smm = flag_digit(image.special_mask);
    let poll = flag_digit(image.polled);
    let ris = flag_digit(image.reads_served);
    write!(text, " SMM {smm} P {poll} RIS {ris}")?;
    push_kept(text, image)?;
    write!(text, "\n")
}

/// Adds the inputs that have risen, and what ICW1 has said, to the controller's line.
#[tactic(auto, unfolding(pic8259::specs::PicNumbers::pic_of))]
fn push_kept(text: &mut String, image: &PicImage) -> Result<(), AllocError>
    ensures { OnOk result (string_bytes text.new
        ≡ string_bytes text.old ++ controller_kept (pic_of image.now)) }
{
    let risen = HexByte(risen_register(image));
    let sngl = is_single(image);
    let ic4 = flag_digit(image.asks_icw4);
    write!(text, " risen {risen} SNGL {sngl} IC4 {ic4}")
}

/// Returns the levels whose line has risen since they were last taken, also if it is low again, for the controller's
/// line.
#[tactic(auto, using(crate::proofs::Registers::byte_of_set), unfolding(pic8259::specs::PicNumbers::pic_of))]
fn risen_register(image: &PicImage) -> u8
    ensures { result ≡ byte_of (pic_of image.now).risen }
{
    image.risen
}

/// Returns SNGL of ICW1 for the controller's line: 1 if no ICW3 belongs to the initialisation sequence, else 0.
#[tactic(auto, unfolding(pic8259::specs::PicNumbers::pic_of))]
fn is_single(image: &PicImage) -> u8
    ensures { result ≡ (if not (pic_of image.now).is_cascaded then 1 else 0) }
{
    digit(image.is_cascaded == 0)
}

/// Returns IRR for the controller's line: the levels that request, in edge mode those whose line is high and has risen,
/// in level mode those whose line is high.
fn request_register(image: &PicImage) -> u8
    ensures { result ≡ byte_of (requests (pic_of image.now)) }
{
    let risen = image.high & image.risen;
    if image.is_level_triggered == 0 {
        risen
    } else {
        image.high
    }
}

/// Returns the name of the word that an initialisation sequence waits for, `none` without one, for the controller's
/// line.
#[tactic(auto, unfolding(pic8259::specs::PicNumbers::pic_of))]
fn awaited(image: &PicImage) -> &'static str
    ensures { result.now ≡ awaited_text (pic_of image.now).expected }
{
    match image.expected {
        2 => "ICW2",
        3 => "ICW3",
        4 => "ICW4",
        _ => "none",
    }
}
