//! A list of tokens, kept as one run of bytes.

ghost use Rattle.std.specs.Prelude.{◌≡◌, ◌==◌, ◌≤◌, ℕ, ◌++◌, List, [], ◌∷◌, length, OnOk, OnErr, sum};
ghost use Rattle.pgv_buf.specs.Tokens.{CasesFit, slot_count, byte, hole, slot, bytes, blank, Cell, fixed_bytes, hole_count, plain, shown, width, be4, hole_types_of};
ghost use Rattle.pgv_buf.specs.Proper.{Proper};
ghost use Rattle.pgv_buf.specs.Marks.{mark_of};
ghost use Rattle.pgv_buf.specs.Fill.{filled_cells, slot_types};
ghost use Rattle.pgv_buf.specs.CasesView.{cases_of};

use crate::fill::{Slot, put_number, write_oids, write_slots};
use crate::mark::Mark;
use crate::places::Places;
use pgv_types::{Oid, PgTypeInfo};
use std::alloc::{AllocError, Global};
use std::marker::Model;

/// Below so many bytes, memory grows to four times as many, and else to twice as many.
const FEW: usize = 0x4_0000;

/// A list of bytes, holes and slots (tokens), each with the bytes that are in its place now.
///
/// A call that runs out of memory leaves the list as it was. [`mark`](Tokens::mark), [`back`](Tokens::back),
/// [`put_u32`](Tokens::put_u32) and [`fill`](Tokens::fill) take no memory.
#[derive(Drop)]
pub struct Tokens {
    bytes: Vec<u8>,
    holes: Places,
    types: Vec<PgTypeInfo>,
    slot_places: Places,
    slots: Vec<Slot>,
    alloc: Global,
}

impl Model for Tokens {
    ghost use Rattle.std.specs.Prelude.{List};
    ghost use Rattle.pgv_buf.specs.Tokens.{Cell, cells_code};

    ghost Value = { List Cell };

    ghost coded = { cells_code };

    ghost use Rattle.pgv_buf.specs.TokensView.{cells_view, IsValid};

    ghost view = { cells_view };

    ghost invariant = { IsValid };
}

impl Tokens {
    /// No tokens.
    #[tactic(auto, using(crate::proofs::CellSteps::none_valid, crate::proofs::CellSteps::none_seen))]
    pub fn new(alloc: Global) -> Tokens
        ensures { result ≡ [] }
    {
        Tokens {
            bytes: Vec::new(alloc),
            holes: Places::new(alloc),
            types: Vec::new(alloc),
            slot_places: Places::new(alloc),
            slots: Vec::new(alloc),
            alloc,
        }
    }

    /// How many bytes are shown.
    #[tactic(auto, using(crate::proofs::Layouts::held, crate::proofs::Layouts::wide))]
    #[inline(always)]
    pub fn len(&self) -> usize
        ensures { result ≡ width self.now }
    {
        self.bytes.len()
    }

    /// Whether no byte is shown.
    pub fn is_empty(&self) -> bool
        ensures { result ≡ (width self.now == 0) }
    {
        self.len() == 0
    }

    /// The bytes that are shown: four for a hole, and for a slot as many as its default and each of its cases has.
    #[tactic(auto, using(crate::proofs::Layouts::held))]
    pub fn as_slice(&self) -> &[u8]
        ensures shown { result.now ≡ shown self.now }
        ensures proper { Proper self.now }
    {
        self.bytes.as_slice()
    }

    /// The types of the holes, in order.
    #[tactic(auto, using(crate::proofs::Layouts::held, crate::proofs::Layouts::lengths))]
    pub fn hole_types(&self) -> &[PgTypeInfo]
        ensures { result.now ≡ hole_types_of self.now }
    {
        self.types.as_slice()
    }

    /// Makes room for `additional` bytes more. The tokens stay as they are.
    #[inline(always)]
    pub fn reserve(&mut self, additional: usize) -> Result<(), AllocError>
        ensures { self.new ≡ self.old }
    {
        if self.bytes.capacity() - self.bytes.len() < additional {
            self.grow(additional)?;
        }
        Ok(())
    }

    /// Asks for memory for `additional` bytes more, and for those that may come after them. The arguments of most
    /// statements fit into the first memory that is asked for, and where a block can't be made larger, fewer are copied
    /// than if each were twice as large as the one before.
    #[cold]
    #[inline(never)]
    fn grow(&mut self, additional: usize) -> Result<(), AllocError>
        ensures { self.new ≡ self.old }
    {
        let len = self.bytes.len();
        let more = if len < FEW { 3 * len + 64 } else { len };
        self.bytes.reserve(additional.max(more))
    }

    /// Appends a byte.
    #[inline(always)]
    pub fn push(&mut self, value: u8) -> Result<(), AllocError>
        ensures ok { OnOk result (self.new ≡ self.old ++ blank (byte value ∷ [])) }
        ensures err { OnErr result (self.new ≡ self.old) }
    {
        self.reserve(1)?;
        self.bytes.push(value)?;
        Ok(())
    }

    /// Appends bytes.
    #[inline(always)]
    pub fn extend_from_slice(&mut self, values: &[u8]) -> Result<(), AllocError>
        ensures ok { OnOk result (self.new ≡ self.old ++ blank (bytes values.now)) }
        ensures err { OnErr result (self.new ≡ self.old) }
    {
        self.reserve(values.len())?;
        self.bytes.extend_from_slice(values)?;
        Ok(())
    }

    /// Appends a hole: four bytes for the OID of a type, zeros until it is filled.
    pub fn push_hole(&mut self, hole_type: PgTypeInfo) -> Result<(), AllocError>
        ensures ok { OnOk result (self.new ≡ self.old ++ blank (hole hole_type ∷ [])) }
        ensures err { OnErr result (self.new ≡ self.old) }
    {
        let place = self.bytes.len();
        self.bytes.reserve(4)?;
        self.types.reserve(1)?;
        self.holes.push(place)?;
        self.types.push(hole_type)?;
        self.bytes.extend_from_slice(&[0, 0, 0, 0])?;
        Ok(())
    }

    /// Appends a slot: it shows the first case whose type is softly equal to the parameter's type, else, and
    /// until it is filled, the default. Each case has as many bytes as the default.
    pub fn push_slot(
        &mut self,
        default: &[u8],
        cases: Vec<(PgTypeInfo, Vec<u8>)>,
    ) -> Result<(), AllocError>
        requires { CasesFit (length default.now) (cases_of cases.items) }
        ensures ok { OnOk result (self.new ≡ self.old
            ++ blank (slot default.now (cases_of cases.items) ∷ [])) }
        ensures err { OnErr result (self.new ≡ self.old) }
    {
        let place = self.bytes.len();
        let mut standard = Vec::new(self.alloc);
        standard.extend_from_slice(default)?;
        self.bytes.reserve(default.len())?;
        self.slots.reserve(1)?;
        self.slot_places.push(place)?;
        self.slots.push(Slot { standard, cases })?;
        self.bytes.extend_from_slice(default)?;
        Ok(())
    }

    /// Forgets all tokens.
    #[tactic(auto, using(crate::proofs::CellSteps::none_valid, crate::proofs::CellSteps::none_seen))]
    pub fn clear(&mut self)
        ensures { self.new ≡ [] }
    {
        self.bytes.clear();
        self.holes.clear();
        self.types.clear();
        self.slot_places.clear();
        self.slots.clear();
    }
}

impl Clone for Tokens {
    ghost is_clone = { λ tokens copy. copy ≡ tokens };

    fn clone(&self) -> Result<Tokens, AllocError> {
        Ok(Tokens {
            bytes: self.bytes.clone()?,
            holes: self.holes.clone()?,
            types: self.types.clone()?,
            slot_places: self.slot_places.clone()?,
            slots: self.slots.clone()?,
            alloc: self.alloc,
        })
    }
}

impl Tokens {
    /// The numbers of bytes, holes and slots so far, to go back to.
    #[tactic(auto, using(crate::proofs::Layouts::held, crate::proofs::Layouts::wide, crate::proofs::Layouts::lengths))]
    #[inline(always)]
    pub fn mark(&self) -> Mark
        ensures { result ≡ mark_of self.now }
    {
        Mark {
            bytes: self.bytes.len(),
            holes: self.types.len(),
            slots: self.slots.len(),
        }
    }

    /// Goes back to the beginning of the list that has the numbers of a mark.
    pub fn back(&mut self, mark: Mark)
        requires { (front : List Cell) × (rest : List Cell) × (self.old ≡ front ++ rest)
            × (mark ≡ mark_of front) }
        ensures { (front : List Cell) (rest : List Cell) → self.old ≡ front ++ rest
            → mark ≡ mark_of front → self.new ≡ front }
    {
        self.bytes.truncate(mark.bytes);
        self.holes.truncate(mark.holes);
        self.types.truncate(mark.holes);
        self.slot_places.truncate(mark.slots);
        self.slots.truncate(mark.slots);
    }

    /// Puts a number, the highest byte first, in place of the four bytes after a mark.
    #[inline(always)]
    pub fn put_u32(&mut self, mark: Mark, value: u32)
        requires { (front : List Cell) × (xs : List ℕ) × (rest : List Cell)
            × (self.old ≡ front ++ fixed_bytes xs ++ rest) × (length xs ≡ 4)
            × (mark ≡ mark_of front) }
        ensures { (front : List Cell) (xs : List ℕ) (rest : List Cell)
            → self.old ≡ front ++ fixed_bytes xs ++ rest → length xs ≡ 4 → mark ≡ mark_of front
            → self.new ≡ front ++ fixed_bytes (be4 value) ++ rest }
    {
        put_number(&mut self.bytes, mark.bytes, value);
    }

    /// Fills each hole with its OID and each slot by the parameter type of its own argument, whatever they
    /// showed before: `types` has the parameter type of each argument, `counts` how many slots each has. Arguments
    /// after the last count have none.
    pub fn fill(&mut self, types: &[PgTypeInfo], counts: &[usize], oids: &[Oid])
        requires arguments { length counts.now ≤ length types.now }
        requires slots { sum counts.now ≡ slot_count self.old }
        requires holes { length oids.now ≡ hole_count self.old }
        ensures { self.new ≡ filled_cells (slot_types types.now counts.now) oids.now
            (plain self.old) }
    {
        write_oids(&mut self.bytes, self.holes.gaps(), oids);
        write_slots(
            &mut self.bytes,
            self.slot_places.gaps(),
            self.slots.as_slice(),
            types,
            counts,
        );
    }
}
