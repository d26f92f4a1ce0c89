//! Laws of what buffers and arguments hold, and of what is read back from them: each is the contract of a function that
//! does nothing. The laws of codecs are in `pgv_codec`, those of arrays and records in binary in its module `nest`.

ghost use Rattle.std.specs.Prelude.{◌≡◌, ℕ, List, [], length, Ok};
ghost use Rattle.pgv_types.specs.Ty.{Ty};
ghost use Rattle.pgv_types.specs.declared.oid.Oid.{Oid};
ghost use Rattle.pgv_buf.specs.Proper.{Proper};
ghost use Rattle.pgv_buf.specs.Tokens.{tokens_hole_types, Token, Cell, shown, width, tokens_width, hole_types_of};
ghost use Rattle.pgv_value.specs.Outcome.{reading_of};
ghost use Rattle.pgv_wire.specs.Arguments.{Argument, Framed, all_cells, types_in, framed, filled_arguments};
ghost use Rattle.pgv_wire.specs.Given.{ArgumentReadsBack, given_in, parts_given};
ghost use Rattle.pgv_wire.specs.History.{Call, after_calls, last_filling, bytes_by, added_in, joined_frames, framed_types, lengths_in, ArePlain, joined_bytes};
ghost use Rattle.pgv_wire.specs.MainSentence.{MainSentence, AdditionIsAStep, RefusalIsAStep, UnchangedIsAStep, EachAdditionIsAStep, FillingIsAStep, CallsAreJoined};
ghost use Rattle.pgv_codec.specs.Encoding.{Image, frame_of};
ghost use Rattle.pgv_wire.specs.ArgumentParts.{ReadAs, AreImages, AllRead, parts_in, written_parts};

use crate::arguments::PgArguments;
use pgv_codec::{Encode, ReadBack, Type};

/// After any additions, refusals and fillings, in any order, the buffer has the accepted frames as the last filling
/// writes them, its bytes are read as a part for each of them, and the part of a value of `T` is read back by `T`.
///
/// 1. The bytes are the accepted frames, written directly with what the last filling was given; those added since have
/// zeros in holes and defaults in slots.
/// 2. The bytes are read frame by frame, as [`PgValueRef::get`](crate::PgValueRef::get) does: one for each accepted
/// addition and nothing after them.
/// 3. The part of the frame that was added for a value of `T` is read in binary, by `T` itself, as what the value
/// keeps, under each type that fits.
///
/// [`call_is_a_step`] says what a call is. That each addition is the frame of an image is what [`PgArguments::buffer`]
/// says of running arguments; that their cells are proper, what
/// [`PgArgumentBuffer::as_slice`](crate::PgArgumentBuffer::as_slice) says; and that OIDs are numbers of 32 bits, what
/// [`oids_fit`] says.
#[tactic(auto, using(crate::proofs::ArgumentsBack::main_sentence))]
pub fn main_sentence<T: ReadBack>()
    ensures { MainSentence T.encoding (reading_of T.parse) (λ v. T.view (T.kept v)) T.fits }
{}

/// Each call that meets its contract is a step in the lists of calls of [`main_sentence`].
///
/// The clause `exact` of [`PgArguments::add`] and [`add_by_ref`](PgArguments::add_by_ref) makes the call the addition
/// of the value's frame; a refusal with anything but out of memory is the step of a value without a frame; a call that
/// leaves all `unchanged` is a refused one; `added` of [`add_each`](PgArguments::add_each) is a step for each outcome;
/// `filled` of [`apply_patches`](PgArguments::apply_patches) is a filling; and calls after calls are one list.
pub fn call_is_a_step<T: Encode + Type>()
    ensures added { AdditionIsAStep }
    ensures refused { RefusalIsAStep }
    ensures unchanged { UnchangedIsAStep }
    ensures each { EachAdditionIsAStep T.info T.encoding }
    ensures filled { FillingIsAStep }
    ensures joined { CallsAreJoined }
{}

/// After any additions, refusals and fillings, in any order, the bytes are what the arguments at the last filling are
/// written as with its types and OIDs, and then the arguments added since, with zeros and defaults.
#[tactic(auto, using(crate::proofs::Histories::history_told))]
pub fn history()
    ensures { (calls : List Call) → shown (all_cells (after_calls [] calls))
        ≡ bytes_by (last_filling calls) }
{}

/// A second filling leaves the same arguments as if it were the only one.
#[tactic(auto, using(crate::proofs::Histories::filled_over))]
pub fn filled_again()
    ensures { (fs : List Framed) (ps ps' : List Ty) (os os' : List Oid)
        → filled_arguments (framed (filled_arguments fs ps os)) ps' os'
        ≡ filled_arguments fs ps' os' }
{}

/// A filling changes the length of no frame.
#[tactic(auto, using(crate::proofs::Histories::lengths_kept))]
pub fn lengths_stay()
    ensures { (args : List Argument) (ps : List Ty) (os : List Oid)
        → lengths_in (filled_arguments (framed args) ps os) ≡ lengths_in args }
{}

/// After any calls, the frames, the types, the holes and the length of the bytes are those of the accepted additions in
/// order, whatever was filled in.
#[tactic(auto, using(crate::proofs::Histories::only_added, crate::proofs::Histories::types_told, crate::proofs::Histories::holes_told, crate::proofs::Histories::width_told))]
pub fn only_additions_count()
    ensures frames { (calls : List Call) → framed (after_calls [] calls) ≡ added_in calls }
    ensures types { (calls : List Call) → types_in (after_calls [] calls)
        ≡ framed_types (added_in calls) }
    ensures holes { (calls : List Call) → hole_types_of (all_cells (after_calls [] calls))
        ≡ tokens_hole_types (joined_frames (added_in calls)) }
    ensures length { (calls : List Call) → width (all_cells (after_calls [] calls))
        ≡ tokens_width (joined_frames (added_in calls)) }
{}

/// Proper cells show exactly as many bytes as `width` counts.
#[tactic(auto, using(pgv_buf::specs::Proper::length_shown))]
pub fn all_counted()
    ensures { (cells : List Cell) → Proper cells → length (shown cells) ≡ width cells }
{}

/// After any calls, if the accepted frames have neither holes nor slots, the bytes are these frames joined, whatever
/// was refused or filled in between.
#[tactic(auto, using(crate::proofs::Histories::plain_told))]
pub fn frames_joined()
    ensures { (calls : List Call) (xss : List (List ℕ)) → ArePlain (added_in calls) xss
        → shown (all_cells (after_calls [] calls)) ≡ joined_bytes xss }
{}

/// The frames of arguments, read from the buffer one after another as [`PgValueRef::get`](crate::PgValueRef::get) does,
/// give one part for each argument, null if its image is null and else what it shows, and leave nothing.
///
/// [`PgArgumentBuffer::as_slice`](crate::PgArgumentBuffer::as_slice) says that its cells are proper.
#[tactic(auto, using(crate::proofs::PartsRead::frames_read, crate::proofs::PartsRead::as_many))]
pub fn frames_read()
    ensures parts { (args : List Argument) (is : List Image) → AreImages is (framed args)
        → Proper (all_cells args) → ReadAs (shown (all_cells args)) (parts_in is args) [] }
    ensures many { (args : List Argument) (is : List Image) → AreImages is (framed args)
        → length (parts_in is args) ≡ length args }
{}

/// Arguments at run time are frames of images, and read from their buffer one after another, as
/// [`PgValueRef::get`](crate::PgValueRef::get) does, they give one part for each argument and leave nothing.
///
/// A part is null if its image is null, and else what the image shows. It holds whatever was added, refused and filled.
#[tactic(auto, using(crate::proofs::PartsRead::all_read))]
pub fn arguments_read(arguments: &PgArguments)
    ensures { AllRead arguments.now }
{
    let _bytes = arguments.buffer().as_slice();
}

/// A frame is the frame of at most one image, so that the images of arguments are those that were added.
#[tactic(auto, using(crate::proofs::PartsRead::one_image, crate::proofs::PartsRead::same_images))]
pub fn one_image()
    ensures frame { (i j : Image) (f : List Token) → (frame_of i).answer ≡ Ok f
        → (frame_of j).answer ≡ Ok f → i ≡ j }
    ensures frames { (is js : List Image) (fs : List Framed) → AreImages is fs
        → AreImages js fs → is ≡ js }
{}

/// After a filling, the parts of arguments are what their images are written as, each for its own parameter type and
/// with the OIDs of its own holes.
#[tactic(auto, using(crate::proofs::PartsRead::parts_filled))]
pub fn parts_written()
    ensures { (fs : List Framed) (is : List Image) (ps : List Ty) (os : List Oid)
        → AreImages is fs → parts_in is (filled_arguments fs ps os) ≡ written_parts is ps os }
{}

/// After any calls, the parts of the arguments are what their images are written as, each with what its argument was
/// given.
///
/// At the last filling it was given its parameter's type and the OIDs of its own holes. An argument that was added
/// since was given neither: it has zeros and defaults.
#[tactic(auto, using(crate::proofs::ArgumentsBack::parts_told))]
pub fn parts_after()
    ensures { (calls : List Call) (is : List Image) → AreImages is (added_in calls)
        → parts_in is (after_calls [] calls) ≡ parts_given is (given_in (last_filling calls)) }
{}

/// After any additions, refusals and fillings, in any order, the buffer's bytes are read frame by frame with nothing
/// left, and the part that was added for a value of `T` is read in binary, by `T` itself, as what the value keeps.
///
/// It is the last part of [`main_sentence`]. The frames are read as [`PgValueRef::get`](crate::PgValueRef::get) does.
/// The part is read under each type that fits with the OIDs that the argument was given: its share at the last filling,
/// or zeros if it was added since.
///
/// That the cells are proper is what [`PgArgumentBuffer::as_slice`](crate::PgArgumentBuffer::as_slice) says of every
/// running buffer; that each addition is the frame of an image, what [`PgArguments::buffer`] says; and that OIDs are
/// numbers of 32 bits, what [`oids_fit`] says.
#[tactic(auto, using(crate::proofs::ArgumentsBack::argument_back))]
pub fn argument_reads_back<T: ReadBack>()
    ensures { ArgumentReadsBack T.encoding (reading_of T.parse) (λ v. T.view (T.kept v)) T.fits }
{}
