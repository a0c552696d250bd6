//! The pieces of a format, as they are read.

ghost use Rattle.std.specs.Prelude.{◌≡◌, [], ◌∷◌, ◌++◌, IfOk, OnOk};
ghost use Rattle.external_calls.specs.Format.{piece_of};
ghost use Rattle.external_calls.specs.Pieces.{literal_of};

use crate::format::Conversion;
use ir_types::{List, Piece};
use rc_base::NoMemory;
use std::alloc::Global;
use std::mem;

/// The pieces so far, and the bytes that are printed behind them.
#[derive(Drop)]
pub struct Pieces {
    alloc: Global,
    pub done: Vec<Piece>,
    pub literal: Vec<u8>,
}

impl Pieces {
    pub fn new(alloc: Global) -> Pieces
        ensures done { result.done.items ≡ [] }
        ensures literal { result.literal.items ≡ [] }
    {
        Pieces {
            alloc,
            done: Vec::new(alloc),
            literal: Vec::new(alloc),
        }
    }

    pub fn print(&mut self, byte: u8) -> Result<(), NoMemory>
        ensures done { OnOk result (self.new.done.items ≡ self.old.done.items) }
        ensures literal { OnOk result (self.new.literal.items ≡ self.old.literal.items ++ byte ∷ []) }
    {
        self.literal.push(byte)?;
        Ok(())
    }

    pub fn convert(&mut self, conversion: Conversion) -> Result<(), NoMemory>
        ensures done { let closed = self.old.done.items ++ literal_of self.old.literal.items in
            OnOk result (self.new.done.items ≡ closed ++ piece_of conversion ∷ []) }
        ensures literal { OnOk result (self.new.literal.items ≡ []) }
    {
        self.close()?;
        self.done.push(conversion.piece())?;
        Ok(())
    }

    /// Ends the literal.
    fn close(&mut self) -> Result<(), NoMemory>
        ensures done { let closed = self.old.done.items ++ literal_of self.old.literal.items in
            OnOk result (self.new.done.items ≡ closed) }
        ensures literal { OnOk result (self.new.literal.items ≡ []) }
    {
        if !self.literal.is_empty() {
            let bytes = mem::replace(&mut self.literal, Vec::new(self.alloc));
            self.done.push(Piece::Literal(bytes.into()))?;
        }
        Ok(())
    }

    pub fn finish(mut self) -> Result<List<Piece>, NoMemory>
        ensures { let closed = self.done.items ++ literal_of self.literal.items in
            IfOk result (λ found. found ≡ closed) }
    {
        self.close()?;
        Ok(self.done.into())
    }
}
