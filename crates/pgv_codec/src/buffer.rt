//! The buffer that encoders append to.

ghost use Rattle.std.specs.Prelude.{◌≡◌, ◌==◌, ◌<◌, ◌≤◌, ◌++◌, ℕ, List, [], ◌∷◌, length, true, Some, OnOk, OnErr, IfOk, IfErr, sum};
ghost use Rattle.pgv_buf.specs.Tokens.{byte, hole, slot, bytes, Cell, blank, fixed_bytes, plain, shown, width, be4, hole_types_of, hole_count, slot_count, CasesFit};
ghost use Rattle.pgv_buf.specs.CasesView.{cases_of};
ghost use Rattle.pgv_buf.specs.Marks.{mark_of};
ghost use Rattle.pgv_buf.specs.Proper.{Proper};
ghost use Rattle.pgv_buf.specs.Fill.{filled_cells, slot_types};
ghost use Rattle.pgv_value.specs.FrameBinary.{max_length, null_length};
ghost use Rattle.pgv_value.specs.declared.error.CodecError.TheVariants.{Memory};
ghost use Rattle.pgv_codec.specs.Encoding.{frame, image_of, plainly, typed, writes};
ghost use Rattle.pgv_codec.specs.Appending.{Appended, Appends, AtOnce, Extends, OutOfMemoryUnchanged};

use crate::traits::Encode;
use pgv_buf::{Mark, Tokens};
use pgv_types::{Oid, PgTypeInfo};
use pgv_value::{CodecError, MAX_LENGTH, NULL_LENGTH, length_bytes};
use std::alloc::{AllocError, Global};
use std::marker::Model;

/// Whether the value that an encoder wrote is null.
#[derive(Clone, Copy, Debug, PartialEq, Eq)]
pub enum IsNull {
    /// The value is null: nothing was appended.
    Yes,
    /// The value's image was appended.
    No,
}

/// The bytes of values, with holes for the OIDs of types that aren't known yet, and slots whose bytes depend on
/// the type of a parameter.
///
/// A contract sees it as a list of cells: bytes, holes and slots, each with the bytes that it shows. A hole shows four
/// zeros, and a slot its default, until [`PgArguments::apply_patches`](crate::PgArguments::apply_patches) fills them.
#[derive(Drop)]
pub struct PgArgumentBuffer {
    tokens: Tokens,
}

impl Model for PgArgumentBuffer {
    ghost use Rattle.std.specs.Prelude.{List};
    ghost use Rattle.pgv_buf.specs.Tokens.{Cell, cells_code};

    ghost Value = { List Cell };

    ghost coded = { cells_code };

    ghost view = { λ b. b.tokens };
}

impl PgArgumentBuffer {
    /// A buffer with nothing in it. It takes no memory yet.
    pub fn new(alloc: Global) -> PgArgumentBuffer
        ensures { result ≡ [] }
    {
        PgArgumentBuffer {
            tokens: Tokens::new(alloc),
        }
    }

    /// How many bytes there are; a hole is four.
    #[inline(always)]
    pub fn len(&self) -> usize
        ensures { result ≡ width self.now }
    {
        self.tokens.len()
    }

    /// Whether there is no byte.
    pub fn is_empty(&self) -> bool
        ensures { result ≡ (width self.now == 0) }
    {
        self.tokens.is_empty()
    }

    /// The bytes, holes and slots as they are shown now: four bytes for a hole, and for a slot as many as its
    /// default has, and each of its cases.
    pub fn as_slice(&self) -> &[u8]
        ensures shown { result.now ≡ shown self.now }
        ensures proper { Proper self.now }
    {
        self.tokens.as_slice()
    }

    /// The types whose OIDs are missing, in the order of their holes.
    pub fn hole_types(&self) -> &[PgTypeInfo]
        ensures { result.now ≡ hole_types_of self.now }
    {
        self.tokens.hole_types()
    }

    /// Appends a byte. Out of memory (C1) leaves the buffer as it was.
    #[inline(always)]
    pub fn push(&mut self, value: u8) -> Result<(), CodecError>
        ensures ok { OnOk result (self.new ≡ self.old ++ blank (byte value ∷ [])) }
        ensures err { OutOfMemoryUnchanged result self.old self.new }
    {
        self.tokens.push(value)?;
        Ok(())
    }

    /// Appends bytes. Out of memory (C1) leaves the buffer as it was.
    #[inline(always)]
    pub fn extend_from_slice(&mut self, values: &[u8]) -> Result<(), CodecError>
        ensures ok { OnOk result (self.new ≡ self.old ++ blank (bytes values.now)) }
        ensures err { OutOfMemoryUnchanged result self.old self.new }
    {
        self.tokens.extend_from_slice(values)?;
        Ok(())
    }

    /// Appends a hole: four bytes for the OID of a type, which are zeros for now. Out of memory (C1) leaves the buffer
    /// as it was.
    pub fn push_hole(&mut self, hole_type: PgTypeInfo) -> Result<(), CodecError>
        ensures ok { OnOk result (self.new ≡ self.old ++ blank (hole hole_type ∷ [])) }
        ensures err { OutOfMemoryUnchanged result self.old self.new }
    {
        self.tokens.push_hole(hole_type)?;
        Ok(())
    }

    /// Appends a slot: bytes that depend on the type of the parameter that they are part of. A filling shows the first
    /// case whose type is softly equal to it, else the default. Out of memory (C1) leaves the buffer as it was. A space
    /// with a case `01` for `jsonb` shows `20` until it is filled.
    pub fn push_slot(
        &mut self,
        standard: &[u8],
        cases: Vec<(PgTypeInfo, Vec<u8>)>,
    ) -> Result<(), CodecError>
        requires { CasesFit (length standard.now) (cases_of cases.items) }
        ensures ok { OnOk result (self.new ≡ self.old
            ++ blank (slot standard.now (cases_of cases.items) ∷ [])) }
        ensures err { OutOfMemoryUnchanged result self.old self.new }
    {
        self.tokens.push_slot(standard, cases)?;
        Ok(())
    }

    /// Forgets everything, as if the buffer were new. It keeps its memory.
    pub fn clear(&mut self)
        ensures { self.new ≡ [] }
    {
        self.tokens.clear();
    }

    /// Appends one frame: a length of four bytes, and that many bytes of the value; the length -1 for null, as
    /// `0000000400000007` for 7 and `ffffffff` for `None`. A size hint above 2147483647 is refused with
    /// [`ValueSize`](CodecError::ValueSize) (C2) before anything is written; a value that is refused later may have
    /// appended something.
    #[inline(always)]
    #[tactic(auto, unfolding(crate::specs::Encoding::frame))]
    pub fn encode<T: Encode>(&mut self, value: &T) -> Result<(), CodecError>
        ensures exact { Appends (frame (T.encoding value.now)) self.old self.new result }
        ensures appended { OnErr result (Extends self.old self.new) }
        ensures hint { max_length < (T.encoding value.now).size_hint → self.new ≡ self.old }
    {
        let hint = value.size_hint();
        if hint > MAX_LENGTH as usize {
            return Err(CodecError::ValueSize(hint));
        }
        if value.encode_at_once(self)? {
            return Ok(());
        }
        self.encode_in_steps(value)
    }

    /// Appends one frame: a length of 0, the value, and then the length that it has.
    #[inline(always)]
    #[tactic(auto, unfolding(crate::specs::Encoding::frame))]
    fn encode_in_steps<T: Encode>(&mut self, value: &T) -> Result<(), CodecError>
        requires { (T.encoding value.now).size_hint ≤ max_length }
        ensures exact { Appends (frame (T.encoding value.now)) self.old self.new result }
        ensures appended { OnErr result (Extends self.old self.new) }
    {
        let mark = self.tokens.mark();
        self.push_u32(0)?;
        let start = self.len();
        match value.encode_by_ref(self)? {
            IsNull::Yes => {
                self.tokens.put_u32(mark, NULL_LENGTH);
                Ok(())
            }
            IsNull::No => {
                let size = self.len() - start;
                if size > MAX_LENGTH as usize {
                    return Err(CodecError::ValueSize(size));
                }
                self.tokens.put_u32(mark, size as u32);
                Ok(())
            }
        }
    }
}

impl Clone for PgArgumentBuffer {
    ghost is_clone = { λ buffer copy. copy ≡ buffer };

    fn clone(&self) -> Result<PgArgumentBuffer, AllocError> {
        Ok(PgArgumentBuffer {
            tokens: self.tokens.clone()?,
        })
    }
}

impl PgArgumentBuffer {
    /// Makes room for `additional` more bytes. It appends nothing, also if it is refused (C1).
    pub fn reserve(&mut self, additional: usize) -> Result<(), CodecError>
        ensures same { self.new ≡ self.old }
        ensures err { IfErr result (λ e. e ≡ Memory) }
    {
        self.tokens.reserve(additional)?;
        Ok(())
    }

    /// A number as four bytes.
    #[inline(always)]
    pub(crate) fn push_u32(&mut self, value: u32) -> Result<(), CodecError>
        ensures ok { OnOk result (self.new ≡ self.old ++ blank (bytes (be4 value))) }
        ensures number { value < 4294967296 }
        ensures err { OutOfMemoryUnchanged result self.old self.new }
    {
        self.extend_from_slice(&value.to_be_bytes())
    }

    /// Appends the number of 16 bytes or fewer, in four bytes, and the bytes, in one step.
    #[inline(always)]
    fn push_counted(&mut self, value: &[u8]) -> Result<(), CodecError>
        requires { length value.now ≤ 16 }
        ensures ok { OnOk result (self.new ≡ self.old
            ++ blank (bytes (be4 (length value.now) ++ value.now))) }
        ensures err { OutOfMemoryUnchanged result self.old self.new }
    {
        let after = 4 + value.len();
        let length = (value.len() as u32).to_be_bytes();
        let mut counted = [0; 20];
        counted[..4].copy_from_slice(&length);
        counted[4..after].copy_from_slice(value);
        self.extend_from_slice(&counted[..after])
    }

    /// Appends the frame of an image of 16 bytes or fewer, and answers `true`, as [`Encode::encode_at_once`] does. Of
    /// four bytes it is one number of eight; a longer one would wait for the length that was written before it.
    #[inline(always)]
    pub(crate) fn push_frame(&mut self, value: &[u8]) -> Result<bool, CodecError>
        requires { length value.now ≤ 16 }
        ensures ok { IfOk result (λ done. (done ≡ true)
            × Appended (frame (plainly (writes (Some (image_of (bytes value.now))))))
            self.old self.new) }
        ensures err { IfErr result (λ e. e ≡ Memory) }
        ensures appended { OnErr result (Extends self.old self.new) }
    {
        if value.len() == 4 {
            self.push_counted(value)?;
            return Ok(true);
        }
        self.push_u32(value.len() as u32)?;
        self.extend_from_slice(value)?;
        Ok(true)
    }

    /// Appends the frame of an image of these bytes, and answers `true`, as [`Encode::encode_at_once`] does; `false` of
    /// more bytes than a frame can have.
    #[inline(always)]
    pub(crate) fn push_long_frame(&mut self, value: &[u8]) -> Result<bool, CodecError>
        ensures ok { IfOk result (λ done. AtOnce done
            (frame (plainly (writes (Some (image_of (bytes value.now)))))) self.old self.new) }
        ensures err { IfErr result (λ e. e ≡ Memory) }
        ensures appended { OnErr result (Extends self.old self.new) }
    {
        let Some(length) = length_bytes(value.len()) else {
            return Ok(false);
        };
        self.extend_from_slice(&length)?;
        self.extend_from_slice(value)?;
        Ok(true)
    }

    /// Appends the frame of null, and answers `true`.
    #[inline(always)]
    pub(crate) fn push_null(&mut self) -> Result<bool, CodecError>
        ensures ok { IfOk result (λ done. (done ≡ true)
            × (self.new ≡ self.old ++ blank (bytes (be4 null_length)))) }
        ensures err { OutOfMemoryUnchanged result self.old self.new }
    {
        self.push_u32(NULL_LENGTH)?;
        Ok(true)
    }

    /// A type, as an element's or a field's is written.
    #[inline(always)]
    pub(crate) fn push_type(&mut self, written: PgTypeInfo) -> Result<(), CodecError>
        ensures ok { OnOk result (Appended (typed written) self.old self.new) }
        ensures err { OutOfMemoryUnchanged result self.old self.new }
    {
        match written.oid() {
            Some(oid) => self.push_u32(oid.0),
            None => self.push_hole(written),
        }
    }

    /// How many bytes, holes and slots there are: a place that [`back`](PgArgumentBuffer::back) goes back to.
    #[inline(always)]
    pub fn mark(&self) -> Mark
        ensures { result ≡ mark_of self.now }
    {
        self.tokens.mark()
    }

    /// Goes back to where `mark` was taken: what was appended since is gone, its holes and slots too.
    pub fn back(&mut self, mark: Mark)
        requires { (front : List Cell) × (rest : List Cell) × (self.old ≡ front ++ rest)
            × (mark ≡ mark_of front) }
        ensures { (front : List Cell) (rest : List Cell) → self.old ≡ front ++ rest
            → mark ≡ mark_of front → self.new ≡ front }
    {
        self.tokens.back(mark);
    }

    /// A number in place of four bytes.
    #[inline(always)]
    pub(crate) fn put_u32(&mut self, mark: Mark, value: u32)
        requires { (front : List Cell) × (xs : List ℕ) × (rest : List Cell)
            × (self.old ≡ front ++ fixed_bytes xs ++ rest) × (length xs ≡ 4)
            × (mark ≡ mark_of front) }
        ensures { (front : List Cell) (xs : List ℕ) (rest : List Cell)
            → self.old ≡ front ++ fixed_bytes xs ++ rest → length xs ≡ 4 → mark ≡ mark_of front
            → self.new ≡ front ++ fixed_bytes (be4 value) ++ rest }
    {
        self.tokens.put_u32(mark, value);
    }

    /// Writes the OIDs into the holes, in order, and fills each slot by the parameter type of its argument; `counts`
    /// has the number of slots of each argument; arguments after the last count have none. The owner of the arguments
    /// counts them.
    pub fn fill(&mut self, types: &[PgTypeInfo], counts: &[usize], oids: &[Oid])
        requires arguments { length counts.now ≤ length types.now }
        requires slots { sum counts.now ≡ slot_count self.old }
        requires holes { length oids.now ≡ hole_count self.old }
        ensures { self.new ≡ filled_cells (slot_types types.now counts.now) oids.now
            (plain self.old) }
    {
        self.tokens.fill(types, counts, oids);
    }
}
