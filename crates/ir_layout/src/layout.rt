//! The call that tells what a type takes.

ghost use Rattle.std.specs.Prelude.{◌≡◌, ℕ, List, IfOk};
ghost use Rattle.ir_layout.specs.declared.extent.Extent.{Extent};
ghost use Rattle.ir_layout.specs.declared.extent.Overflow.{Overflow};
ghost use Rattle.ir_layout.specs.Extent.{kept, kept_extent, kept_extents};
ghost use Rattle.ir_layout.specs.Laws.{AreExtents};
ghost use Rattle.ir_layout.specs.Layout.{layout};
ghost use Rattle.ir_read.specs.Shape.{Shape, Spells};
ghost use Rattle.ir_layout.specs.Walk as spec;

use crate::extent::{Extent, Overflow};
use crate::walk::Walk;
use ir_read::Node;
use std::alloc::{AllocError, Global};

/// What named structs take in memory.
pub trait Structs {
    /// With what 64 bits hold of sizes, and by the name, without sigil and quotes.
    ghost extents: { Self → Overflow → List ℕ → Extent };

    /// What the struct of the name takes.
    fn extent(&self, overflow: Overflow, name: &[u8]) -> Extent
        ensures { result ≡ extents self.now overflow name.now };
}

/// What the type that the nodes spell takes in memory, with what 64 bits hold of its size.
pub fn extent_of<S: Structs>(
    alloc: Global,
    overflow: Overflow,
    structs: &S,
    nodes: &[Node<'_>],
) -> Result<Extent, AllocError>
    ensures nodes { IfOk result (λ extent. extent ≡ spec.extent_by (kept overflow) (S.extents structs.now overflow) nodes.now) }
    // Where they spell a type, and named structs are kept as whole layouts are, it is the layout of the type.
    ensures layout { (named : List ℕ → Extent) → AreExtents named →
        ((name : List ℕ) → S.extents structs.now overflow name ≡ kept_extents overflow named name) →
        (shape : Shape) → Spells shape nodes.now →
        IfOk result (λ extent. extent ≡ kept_extent overflow (layout named shape)) }
{
    walked(alloc, overflow, structs, nodes)
}

fn walked<S: Structs>(
    alloc: Global,
    overflow: Overflow,
    structs: &S,
    nodes: &[Node<'_>],
) -> Result<Extent, AllocError>
    ensures { IfOk result (λ extent. extent ≡ spec.extent_by (kept overflow) (S.extents structs.now overflow) nodes.now) }
{
    let mut walk = Walk::new(alloc);
    for node in nodes {
        walk.step(overflow, structs, node)?;
    }
    Ok(walk.extent())
}
