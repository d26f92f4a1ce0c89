//! The parameters of a statement.

ghost use Rattle.std.specs.Prelude.{◌≡◌, ◌≢◌, ◌==◌, ◌+◌, ◌-◌, ◌≤◌, ◌++◌, ℕ, List, [], ◌∷◌, length, OnOk, OnErr, IfOk, IfErr, IsOk, IsErrOf, string_bytes, decimal, replicate};
ghost use Rattle.pgv_buf.specs.Tokens.{shown, hole_count, hole_types_of};
ghost use Rattle.pgv_value.specs.declared.error.CodecError.TheVariants.{Memory, ParameterCount, HoleCount};
ghost use Rattle.pgv_wire.specs.Arguments.{types_in, all_cells, Adds, argument_frame, filled_arguments, framed, early};
ghost use Rattle.pgv_wire.specs.Counts.{AreCounts};
ghost use Rattle.pgv_wire.specs.EachAddition.{AreOutcomes, accepted};
ghost use Rattle.pgv_wire.specs.History.{WrittenEarly};
ghost use Rattle.pgv_codec.specs.Encoding.{value_type};
ghost use Rattle.pgv_wire.specs.ArgumentParts.{OfImages};

use pgv_codec::{Encode, PgArgumentBuffer, Type, type_of_value};
use pgv_types::{Oid, PgTypeInfo};
use pgv_value::CodecError;
use std::alloc::{AllocError, Global};
use std::marker::Model;

/// The parameters of a statement: for each its type, and its frame in one buffer.
///
/// A contract sees them as a list of pairs, a type and the cells of a frame: bytes, holes and slots with the bytes
/// that they show. An addition that is accepted appends one pair whose holes show zeros and whose slots show their
/// defaults; one that is refused changes nothing.
#[derive(Drop)]
pub struct PgArguments {
    buffer: PgArgumentBuffer,
    types: Vec<PgTypeInfo>,
    /// How many slots each argument has. Those at the end that have none are left out.
    counts: Vec<usize>,
}

impl Model for PgArguments {
    ghost use Rattle.std.specs.Prelude.{List};
    ghost use Rattle.std.specs.Coded.{coded×, coded_list};
    ghost use Rattle.pgv_types.specs.Ty.{ty_code};
    ghost use Rattle.pgv_buf.specs.Tokens.{cells_code};
    ghost use Rattle.pgv_wire.specs.Arguments.{Argument};

    ghost Value = { List Argument };

    ghost coded = { coded_list (coded× ty_code cells_code) };

    ghost use Rattle.pgv_wire.specs.KeptView.{arguments_view, IsKept};

    ghost view = { arguments_view };

    ghost invariant = { IsKept };
}

impl PgArguments {
    /// No arguments. It takes no memory yet.
    pub fn new(alloc: Global) -> PgArguments
        ensures { result ≡ [] }
    {
        PgArguments {
            buffer: PgArgumentBuffer::new(alloc),
            types: Vec::new(alloc),
            counts: Vec::new(alloc),
        }
    }

    /// Makes room for `additional` more arguments and `size` more bytes. It adds nothing, also if it is refused (C1).
    pub fn reserve(&mut self, additional: usize, size: usize) -> Result<(), CodecError>
        ensures same { self.new ≡ self.old }
        ensures err { IfErr result (λ e. e ≡ Memory) }
    {
        self.types.reserve(additional)?;
        self.buffer.reserve(size)?;
        Ok(())
    }

    /// How many arguments there are.
    /// After `add(7)` to empty arguments it is 1.
    pub fn len(&self) -> usize
        ensures { result ≡ length self.now }
    {
        self.types.len()
    }

    /// Whether there is no argument.
    pub fn is_empty(&self) -> bool
        ensures { result ≡ (length self.now == 0) }
    {
        self.len() == 0
    }

    /// The type of each argument: what its value produced, or else its Rust type's.
    /// After `add(7)` they are `int4` alone.
    pub fn types(&self) -> &[PgTypeInfo]
        ensures { result.now ≡ types_in self.now }
    {
        self.types.as_slice()
    }

    /// The frames of the arguments, one after another. Each is the frame of an image. There are types and OIDs, as
    /// many as arguments and holes, with which the bytes are the first of these frames, written early, and then the
    /// others with zeros for holes and defaults for slots. That they are the last filling's is what
    /// [`apply_patches`](PgArguments::apply_patches) and [`laws::history`](crate::laws::history) say;
    /// [`laws::arguments_read`](crate::laws::arguments_read) says what reading the frames gives.
    #[tactic(auto, using(crate::proofs::Histories::written_early, crate::proofs::ArgumentLists::held))]
    pub fn buffer(&self) -> &PgArgumentBuffer
        ensures frames { result.now ≡ all_cells self.now }
        ensures images { OfImages self.now }
        ensures written { WrittenEarly self.now }
    {
        &self.buffer
    }

    /// Adds a value, and remembers what it produces or else its type's info. It is accepted, unless memory runs out
    /// (C1), exactly where the value has a frame; a refused one leaves all as it was. It is refused with
    /// [`ValueSize`](CodecError::ValueSize) (C2) if the size hint or the image is above 2147483647, and else with what
    /// the value's own encoder says. 7 added to empty arguments is `00000004 00000007`, and the value stays yours.
    #[inline(always)]
    pub fn add_by_ref<T: Encode + Type>(&mut self, value: &T) -> Result<(), CodecError>
        ensures exact { Adds (argument_frame (T.encoding value.now))
            (value_type T.info (T.encoding value.now)) self.old self.new result }
        ensures unchanged { OnErr result (self.new ≡ self.old) }
    {
        self.types.reserve(1)?;
        let argument_type = type_of_value(value)?;
        let mark = self.buffer.mark();
        if let Err(error) = self.buffer.encode(value) {
            self.buffer.back(mark);
            return Err(error);
        }
        let slots = self.buffer.mark().slots() - mark.slots();
        if note_slots(&mut self.counts, self.types.len(), slots).is_err() {
            self.buffer.back(mark);
            return Err(CodecError::Memory);
        }
        self.types.push(argument_type)?;
        Ok(())
    }

    /// Adds a value, as [`add_by_ref`](PgArguments::add_by_ref) does.
    /// 7 is `00000004 00000007`, and `None::<i32>` is `ffffffff`.
    pub fn add<T: Encode + Type + Drop>(&mut self, value: T) -> Result<(), CodecError>
        ensures exact { Adds (argument_frame (T.encoding value))
            (value_type T.info (T.encoding value)) self.old self.new result }
        ensures unchanged { OnErr result (self.new ≡ self.old) }
    {
        self.add_by_ref(&value)
    }

    /// Adds each value in order, and returns an outcome for each. The list of outcomes is reserved first: if that is
    /// refused (C1), nothing was added. For no values no memory is asked for. With 2, a value that refuses and 4, the
    /// outcomes are Ok, an error and Ok, and the bytes `00000004 00000002 00000004 00000004`.
    pub fn add_each<T: Encode + Type>(
        &mut self,
        alloc: Global,
        values: &[T],
    ) -> Result<Vec<Result<(), CodecError>>, CodecError>
        ensures outcomes { IfOk result (λ rs. AreOutcomes (λ x. argument_frame (T.encoding x))
            (λ x. value_type T.info (T.encoding x)) values.now rs.items) }
        ensures added { IfOk result (λ rs. self.new
            ≡ self.old ++ accepted (λ x. argument_frame (T.encoding x))
            (λ x. value_type T.info (T.encoding x)) values.now rs.items) }
        ensures err { IfErr result (λ e. e ≡ Memory) }
        ensures succeeds { values.now ≡ [] → IsOk result }
        ensures unchanged { OnErr result (self.new ≡ self.old) }
    {
        let mut outcomes = Vec::with_capacity(alloc, values.len())?;
        for value in values {
            let outcome = self.add_by_ref(value);
            outcomes.push(outcome)?;
        }
        Ok(outcomes)
    }

    /// Appends the placeholder of the last argument, `$` and [`len`](PgArguments::len) in decimal. Out of memory (C1)
    /// leaves the text as it was. With one argument it is `$1`.
    pub fn format_placeholder(&self, out: &mut String) -> Result<(), CodecError>
        ensures ok { OnOk result (string_bytes out.new
            ≡ string_bytes out.old ++ 36 ∷ decimal (length self.now)) }
        ensures err { IfErr result (λ e. (e ≡ Memory)
            × (string_bytes out.new ≡ string_bytes out.old)) }
    {
        let count = self.len();
        let text = format!(in *out.allocator(); "${count}")?;
        out.push_str(text.as_str())?;
        Ok(())
    }

    /// The types whose OIDs are missing, in the order of their holes.
    /// After a list of values of the type `mood`, known by its name, they are `mood` alone.
    pub fn hole_types(&self) -> &[PgTypeInfo]
        ensures { result.now ≡ hole_types_of (all_cells self.now) }
    {
        self.buffer.hole_types()
    }

    /// How many holes there are.
    fn holes(&self) -> usize
        ensures { result ≡ hole_count (all_cells self.now) }
    {
        self.hole_types().len()
    }

    /// Writes the OIDs into the holes, in order, and fills each slot by the parameter type of its own argument: with
    /// the first case whose type is softly equal to it, else with the default. Without exactly one type for each
    /// argument it is refused with [`ParameterCount`](CodecError::ParameterCount) (C10), and else without exactly one
    /// OID for each hole with [`HoleCount`](CodecError::HoleCount) (C11); a refusal changes nothing, and with the right
    /// numbers there is none. It takes no memory and may be called again, also with additions between: each call fills
    /// all anew, and the bytes are the frames written early with these types and OIDs.
    ///
    /// The list `{ok}` of that type is `0000001a 00000001 00000000 00000000 00000001 00000001 00000002 6f6b`; with the
    /// OID 16600 the four bytes of its third number are `000040d8`, and after a second call with 16601 `000040d9`.
    pub fn apply_patches(&mut self, types: &[PgTypeInfo], oids: &[Oid]) -> Result<(), CodecError>
        ensures ok { length types.now ≡ length self.old
            → length oids.now ≡ hole_count (all_cells self.old) → IsOk result }
        ensures parameters { length types.now ≢ length self.old → IsErrOf result ParameterCount }
        ensures holes { length types.now ≡ length self.old
            → length oids.now ≢ hole_count (all_cells self.old) → IsErrOf result HoleCount }
        ensures filled { OnOk result (self.new
            ≡ filled_arguments (framed self.old) types.now oids.now) }
        ensures written { OnOk result (shown (all_cells self.new)
            ≡ early (framed self.old) types.now oids.now) }
        ensures unchanged { OnErr result (self.new ≡ self.old) }
    {
        if types.len() != self.len() {
            return Err(CodecError::ParameterCount);
        }
        if oids.len() != self.holes() {
            return Err(CodecError::HoleCount);
        }
        self.buffer.fill(types, self.counts.as_slice(), oids);
        Ok(())
    }
}

impl Clone for PgArguments {
    ghost is_clone = { λ arguments copy. copy ≡ arguments };

    fn clone(&self) -> Result<PgArguments, AllocError> {
        Ok(PgArguments {
            buffer: self.buffer.clone()?,
            types: self.types.clone()?,
            counts: self.counts.clone()?,
        })
    }
}

/// Remembers how many slots the next argument has, where there are `before` so far. One that has none adds nothing.
#[inline(always)]
fn note_slots(counts: &mut Vec<usize>, before: usize, slots: usize) -> Result<(), AllocError>
    requires { length counts.old.items ≤ before }
    ensures ok { OnOk result ((all : List ℕ) → AreCounts all counts.old.items → length all ≡ before
        → AreCounts (all ++ slots ∷ []) counts.new.items) }
    ensures err { OnErr result (counts.new.items ≡ counts.old.items) }
{
    if slots == 0 {
        return Ok(());
    }
    push_slots(counts, before, slots)
}

/// Appends a number of slots, after zeros for the arguments that were left out.
#[inline(never)]
fn push_slots(counts: &mut Vec<usize>, before: usize, slots: usize) -> Result<(), AllocError>
    requires { length counts.old.items ≤ before }
    ensures ok { OnOk result (counts.new.items
        ≡ counts.old.items ++ replicate (before - length counts.old.items) 0 ++ slots ∷ []) }
    ensures err { OnErr result (counts.new.items ≡ counts.old.items) }
{
    let len = counts.len();
    counts.resize(before, 0)?;
    if counts.push(slots).is_err() {
        counts.truncate(len);
        return Err(AllocError);
    }
    Ok(())
}
