//! Laws of checked modules. The functions here do nothing; their contracts are theorems.

ghost use Rattle.std.specs.Prelude.{ℕ, ◌<◌, ◌≤◌, ◌^◌, length, List, IfOk, map};
ghost use Rattle.ir_items.specs.declared.segment.Cut.TheVariants as cuts;
ghost use Rattle.ir_items.specs.Segment.{segments_of};
ghost use Rattle.ir_read.specs.Node.{Told};
ghost use Rattle.machine_model.specs.MemoryLaws.{AreApart};
ghost use Rattle.machine_model.specs.Runnable.{IsRunnable};
ghost use Rattle.machine_model.specs.Start.{object_of_global};
ghost use Rattle.module_build.specs.Checked.{checked_module, module_in};
ghost use Rattle.module_build.specs.InLine.{LinesAreTheirs};
ghost use Rattle.module_build.specs.Ranges.{AreInRange};
ghost use Rattle.module_build.specs.Whole.{BlocksAreWhole};

use global_check::laws::{globals_lie_apart, globals_lie_where_placed, images_have_their_sizes};
use ir_items::laws::segments_are_the_nodes;
use ir_lex::laws::tokens_are_few;
use ir_read::laws::read_is_spelled;
use module_check::laws::names_stand_for_what_is_there;

/// What a machine asks of a module holds of each that is accepted. A text of 4 MiB has far fewer nodes.
pub fn accepted_modules_can_be_run()
    ensures { (nodes : List Told) → length nodes < 2 ^ 32 → IfOk (checked_module nodes) IsRunnable }
{
    segments_are_the_nodes();
}

/// The function `main` of an accepted module is one of its functions.
pub fn main_is_there()
    ensures { (nodes : List Told) → IfOk (checked_module nodes) (λ code. code.main < length code.functions) }
{
    names_stand_for_what_is_there();
}

/// A machine can run the module of each text that is within the limit of the reader.
pub fn modules_of_texts_can_be_run()
    ensures { (text : List ℕ) → length text ≤ 2 ^ 22 → IfOk (module_in text) IsRunnable }
{
    accepted_modules_can_be_run();
    read_is_spelled();
    tokens_are_few();
}

/// No byte is in two globals of the module of a text that is within the limit of the reader.
pub fn globals_of_texts_lie_apart()
    ensures { (text : List ℕ) → length text ≤ 2 ^ 22 → IfOk (module_in text) (λ code. AreApart (map object_of_global code.globals)) }
{
    globals_lie_apart();
    globals_lie_where_placed();
    images_have_their_sizes();
    segments_are_the_nodes();
    read_is_spelled();
    tokens_are_few();
}

/// Each function of an accepted module has a block, and the last instruction of each block, and no other, ends it.
pub fn blocks_are_whole()
    ensures { (nodes : List Told) → IfOk (checked_module nodes) BlocksAreWhole }
{}

/// The functions, blocks and registers that the instructions of an accepted module name are there.
pub fn numbers_are_in_range()
    ensures { (nodes : List Told) → IfOk (checked_module nodes) AreInRange }
{
    names_stand_for_what_is_there();
}

/// The lines that are counted are those of the instructions, one for one.
pub fn lines_are_those_of_instructions()
    ensures { (nodes : List Told) → IfOk (checked_module nodes) (LinesAreTheirs (segments_of cuts.Items nodes)) }
{}
