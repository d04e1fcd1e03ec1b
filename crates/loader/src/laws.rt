//! What holds of all HEX texts and images. Each law is the contract of a function that does nothing.
ghost use Rattle.loader.specs.Laws.{BytesChangePlaces, HasLongestRuns, LaterBytesWin, LinesChangePlaces, LoadsAlone, LoadsRecords, ReadsBack, RecordsChangePlaces};

use board_types::image::Image;

/// An image survives being saved: its HEX text is read as that image, without a fault. The proof that its text gives no
/// other image rests on it.
pub fn reads_back(image: &Image)
    ensures { ReadsBack image.now }
{
    // a read shows what holds of every image
    let _ = image.get(0);
}

/// Says without the reader's steps what it takes and gives: a HEX text gives an image if and only if its lines are
/// those of records, with the end record last, and the image holds the bytes of these records, each at its address, put
/// in one after another.
pub fn loads_records()
    ensures { LoadsRecords }
{}

/// An image that bytes are put into holds at each address the last byte put there, or if none was, what it held before.
/// The proof of which image a HEX text's records give rests on it.
#[tactic(auto, using(crate::proofs::LaterBytes::later_bytes_win))]
pub fn later_bytes_win()
    ensures { LaterBytesWin }
{}

/// The HEX text of an image is made of records whose bytes that image holds and no other image does, so another loader
/// that follows the records loads the same.
pub fn one_image(image: &Image)
    ensures { LoadsAlone image.now }
{
    // a read shows what holds of every image
    let _ = image.get(0);
}

/// Says without the writer's steps how a HEX text is laid out: the image's bytes in the order of addresses, each record
/// the longest run: up to 16 bytes, to the end of their bank of 65,536, or to an address without a byte.
pub fn longest_runs(image: &Image)
    ensures { HasLongestRuns image.now }
{
    // a read shows what holds of every image
    let _ = image.get(0);
}

/// Bytes that share no address may be put into an image in either order, and so HEX texts with their records in another
/// order may give one image.
#[tactic(auto, using(crate::proofs::Places::bytes_change_places))]
pub fn bytes_change_places()
    ensures { BytesChangePlaces }
{}

/// Two neighbouring data records of a HEX text that share no address may change places: their bytes give the same
/// image, whatever records stand around them.
#[tactic(auto, using(crate::proofs::Places::records_change_places))]
pub fn records_change_places()
    ensures { RecordsChangePlaces }
{}

/// Whoever reorders a HEX text's lines may swap two neighbouring data records that share no address: the text gives the
/// same image.
pub fn lines_change_places()
    ensures { LinesChangePlaces }
{}
