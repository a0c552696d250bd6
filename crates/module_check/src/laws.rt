//! Laws of names and of blocks. The functions here do nothing; their contracts are theorems.

ghost use Rattle.std.specs.Prelude.{◌≡◌, List};
ghost use Rattle.module_check.specs.Laws.{is_ended};
ghost use Rattle.module_check.specs.Shape.{is_whole, phase_from};
ghost use Rattle.module_check.specs.BodyNames.{names_of as body_names};
ghost use Rattle.module_check.specs.ItemNames.{names_of as module_names};
ghost use Rattle.module_check.specs.Within.{StandForItems, StandForLocals};
ghost use Rattle.ir_items.specs.Segment.{Segment};
ghost use Rattle.instruction_check.specs.declared.scope.ModuleNames.{ModuleNames};
ghost use Rattle.module_check.specs.declared.shape.Phase.TheVariants as phases;
ghost use Rattle.ir_items.specs.Statement.{Statement};

/// Each name of a module stands for a global that is counted, for a function whose signature is there, or for one that is
/// declared alone; and each name of a body for a register whose kind is there, for a block that is counted, or for nothing.
pub fn names_stand_for_what_is_there()
    ensures items { (items : List Segment) → StandForItems (module_names items) }
    ensures locals { (names : ModuleNames) (item : Segment) → StandForLocals (body_names names item) }
{}

/// The instructions of a block leave it ended exactly where the last one ends it, and no other does.
pub fn ended_blocks_are_whole()
    ensures { (instructions : List Statement) → is_ended (phase_from phases.Open instructions) ≡ is_whole instructions }
{}
