//! Laws of modules that are within the machine's rows. The functions here do nothing; their contracts are theorems.

ghost use Rattle.std.specs.Prelude.{◌≡◌, List, None, IfOk};
ghost use Rattle.ir_items.specs.declared.segment.Cut.TheVariants as cuts;
ghost use Rattle.ir_items.specs.Segment.{segments_of};
ghost use Rattle.ir_read.specs.Node.{Told};
ghost use Rattle.machine_model.specs.Rows.{HasRows};
ghost use Rattle.module_build.specs.Checked.{checked_module};
ghost use Rattle.module_text.specs.Beyond.{first_beyond};

use module_build::laws::{blocks_are_whole, lines_are_those_of_instructions, main_is_there};

/// An accepted module has all of its rows, where none of its instructions is beyond the machine.
pub fn modules_within_have_rows()
    ensures { (nodes : List Told) → IfOk (checked_module nodes) (λ code. first_beyond (segments_of cuts.Items nodes) code ≡ None → HasRows code) }
{
    lines_are_those_of_instructions();
    blocks_are_whole();
    main_is_there();
}
