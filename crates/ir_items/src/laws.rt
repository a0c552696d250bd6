//! Laws of the definitions by which nodes are cut. The functions here do nothing; their contracts are theorems.

ghost use Rattle.std.specs.Prelude.{◌≡◌, zero, List};
ghost use Rattle.std.specs.List.{AllByRecursion};
ghost use Rattle.ir_items.specs.declared.segment.Cut.{Cut};
ghost use Rattle.ir_items.specs.declared.segment.Cut.TheVariants as cuts;
ghost use Rattle.ir_items.specs.Laws.{AreClosed, AreCut, IsClosed, IsItem, IsPhrase, joined, nodes_of, without_marks};
ghost use Rattle.ir_items.specs.Phrase.{phrases_of};
ghost use Rattle.ir_items.specs.Segment.{segments_of};
ghost use Rattle.ir_read.specs.Laws.{Reads};
ghost use Rattle.ir_read.specs.Node.{Lexeme, Told};

/// The segments of a list are its nodes, one behind the other. Nothing begins within one, and something with each but the
/// first.
pub fn segments_are_the_nodes()
    ensures whole { (cut : Cut) (nodes : List Told) → nodes_of (segments_of cut nodes) ≡ nodes }
    ensures parted { (cut : Cut) (nodes : List Told) → AreCut cut (segments_of cut nodes) }
{}

/// Of the nodes of a module each item's first one was taken as an item's, and no other.
pub fn items_begin_with_an_item()
    ensures { (tokens : List Lexeme) (nodes : List Told) → Reads tokens nodes → AllByRecursion IsItem (segments_of cuts.Items nodes) }
{}

/// The phrases of a list are its nodes, one behind the other, but for the marks between them. Each is one node, or goes on
/// while something is open that it opened. Each but the last ends with all of that closed, and the last one too where
/// nothing is open behind the list.
pub fn phrases_are_the_nodes()
    ensures whole { (nodes : List Told) → joined (phrases_of nodes) ≡ without_marks zero nodes }
    ensures shaped { (nodes : List Told) → AllByRecursion IsPhrase (phrases_of nodes) }
    ensures closed { (nodes : List Told) → AreClosed (phrases_of nodes) }
    ensures all_closed { (nodes : List Told) → IsClosed nodes → AllByRecursion IsClosed (phrases_of nodes) }
{}
